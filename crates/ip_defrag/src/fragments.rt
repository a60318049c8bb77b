//! A frame that takes part in reassembly, with what its IPv4 header says.
ghost use Rattle.std.specs.Prelude.{◌≡◌, ◌≤◌, ◌<◌, ◌+◌, ◌-◌, ◌%◌, take, IfErr, IfOk, is_ok, length};
ghost use Rattle.ip_defrag.specs.Fragments.{data_of, from_of, headers_length, is_fragment, is_last};
ghost use Rattle.ip_defrag.specs.Fragments.{name_of, takes_part, to_of};

use crate::names::Name;
use frame_view::{Frame, Headers, V4Part, view};
use std::marker::Model;

/// A frame that takes part in reassembly. Contracts see it as that frame.
#[derive(Drop)]
pub(crate) struct Fragment {
    /// The frame.
    frame: Frame,
    /// What its IPv4 header says.
    ip: V4Part,
}

/// The most data of a datagram in bytes: after the longest header of 60 it makes a total length of
/// 65,535.
const MOST_DATA: usize = 65_475;

impl Model for Fragment {
    ghost use Rattle.frame_view.specs.declared.frames.Frame.{Frame};

    ghost Value = { Frame };

    ghost use Rattle.ip_defrag.specs.Held.{IsRead};

    ghost view = { λ fragment. fragment.frame };

    ghost invariant = { λ fragment. IsRead fragment.frame fragment.ip };
}

impl Fragment {
    /// Reads a frame. One that doesn't take part is handed back.
    pub(crate) fn read(frame: Frame) -> Result<Fragment, Frame>
        ensures taken { is_ok result ≡ takes_part frame }
        ensures frame { IfOk result (λ fragment. fragment ≡ frame) }
        ensures handed_back { IfErr result (λ same. same ≡ frame) }
    {
        match view(frame.bytes.as_slice()) {
            Headers::V4(_, ip) if is_fragment(&ip, frame.bytes.len()) => Ok(Fragment { frame, ip }),
            _ => Err(frame),
        }
    }

    /// The frame that was read.
    pub(crate) fn frame(&self) -> &Frame
        ensures { result.now ≡ self.now }
    {
        &self.frame
    }

    /// Returns the frame.
    pub(crate) fn into_frame(self) -> Frame
        ensures { result ≡ self }
    {
        self.frame
    }

    /// The name of its datagram.
    #[tactic(auto, unfolding(crate::specs::Fragments::name_of))]
    pub(crate) fn name(&self) -> Name
        ensures { result ≡ name_of self.now }
    {
        Name {
            source: self.ip.from,
            dest: self.ip.to,
            protocol: self.ip.next,
            ident: self.ip.ident,
        }
    }

    /// The place in its datagram at which its data begins.
    pub(crate) fn from(&self) -> usize
        ensures place { result ≡ from_of self.now }
        ensures some { result < to_of self.now }
    {
        8 * self.ip.offset as usize
    }

    /// The place after its data.
    pub(crate) fn to(&self) -> usize
        ensures place { result ≡ to_of self.now }
        ensures most { result ≤ 65475 }
    {
        8 * self.ip.offset as usize + (self.ip.total - self.ip.header) as usize
    }

    /// Whether no more fragments follow.
    pub(crate) fn is_last(&self) -> bool
        ensures { result ≡ is_last self.now }
    {
        !self.ip.more
    }

    /// Its data.
    pub(crate) fn data(&self) -> &[u8]
        ensures bytes { result.now ≡ data_of self.now }
        ensures len { from_of self.now + length result.now ≡ to_of self.now }
    {
        let headers = 14 + self.ip.header as usize;
        let (_, behind) = self.frame.bytes.as_slice().split_at(headers);
        let (data, _) = behind.split_at((self.ip.total - self.ip.header) as usize);
        data
    }

    /// The two headers before its data.
    pub(crate) fn headers(&self) -> &[u8]
        ensures bytes { result.now ≡ take (headers_length self.now) self.now.bytes }
        ensures len { length result.now ≡ headers_length self.now }
        ensures long { 34 ≤ length result.now }
        ensures short { length result.now ≤ 74 }
        ensures even { (length result.now - 14) % 2 ≡ 0 }
    {
        let (headers, _) = self
            .frame
            .bytes
            .as_slice()
            .split_at(14 + self.ip.header as usize);
        headers
    }
}

/// Whether an IPv4 header is that of a fragment with all its data among the captured bytes of its
/// frame.
fn is_fragment(ip: &V4Part, captured: usize) -> bool
    requires within { ip.now.header ≤ ip.now.total }
    requires offset { ip.now.offset < 0x2000 }
    ensures { result ≡ is_fragment ip.now captured }
{
    let data = (ip.total - ip.header) as usize;
    (ip.more || ip.offset > 0)
        && captured >= 14 + ip.total as usize
        && ip.total > ip.header
        && (!ip.more || data % 8 == 0)
        && 8 * ip.offset as usize + data <= MOST_DATA
}
