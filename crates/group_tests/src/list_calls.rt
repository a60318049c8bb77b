//! Lists that are pushed to with enough memory.
use frame_view::{ByteList, Memory, MomentList};
use std::alloc::Global;
use std::test::Fail;

/// A list of two bytes.
fn two_bytes(alloc: Global) -> Result<ByteList, Memory> {
    let mut bytes = ByteList::new(alloc);
    bytes.push(7)?;
    bytes.push(9)?;
    Ok(bytes)
}

/// A list of the last possible moment.
fn last_moment(alloc: Global) -> Result<MomentList, Memory> {
    let mut moments = MomentList::new(alloc);
    moments.push(u64::MAX)?;
    Ok(moments)
}

#[test]
fn a_pushed_item_is_the_last(rt: HostRuntime) -> Result<(), Fail> {
    let bytes = two_bytes(rt.alloc())?;
    assert_eq!(rt; bytes.as_slice(), [7, 9].as_slice());
    let moments = last_moment(rt.alloc())?;
    assert_eq!(rt; moments.as_slice(), [u64::MAX].as_slice());
    Ok(())
}
