//! Words, and sources, sinks and stores in memory: each call once with ample memory.
ghost use Rattle.std.specs.Prelude.{◌≡◌, ◌++◌, ◌∷◌, [], IfOk, IsTrue, OnOk};
ghost use Rattle.tap_outside.specs.Seen.{Entry};

use frame_view::{ByteList, MomentList};
use std::alloc::{AllocError, Global};
use std::process::Abort;
use std::test::Fail;
use tap_outside::{
    Failed, MemSink, MemSource, MemStore, OutError, Sink, Source, Store, SureStore, Word,
    write_whole,
};

/// A list of these numbers.
fn numbers(alloc: Global, numbers: &[u64]) -> Result<MomentList, AllocError> {
    Ok(MomentList::from_vec(numbers.to_vec(alloc)?))
}

/// What a name gives, up to 36 bytes, read by four bytes.
pub(crate) fn fetched<S: Store>(
    alloc: Global,
    store: &mut S,
    name: &[u8],
) -> Result<Vec<u8>, OutError>
    requires { IsTrue ((S.seen store.old).to_read name.now) }
{
    let mut input = store.fetch(name)?;
    let mut bytes = Vec::new(alloc);
    for _ in 0..9 {
        let mut piece = [0; 4];
        let given = input.read(&mut piece)?;
        bytes.extend_from_slice(&piece[..given])?;
    }
    store.close(input);
    Ok(bytes)
}

/// What a source gives before it ends or a read fails, up to 36 bytes, read by four bytes.
fn given_by<I: Source>(alloc: Global, input: &mut I) -> Result<Vec<u8>, AllocError>
    requires { (I.seen input.old).given ≡ [] }
    ensures given { IfOk result (λ bytes. (I.seen input.new).given ≡ bytes.items) }
    ensures named { (I.seen input.new).name ≡ (I.seen input.old).name }
{
    let mut bytes = Vec::new(alloc);
    'reading: for _ in 0..9 {
        let mut piece = [0; 4];
        let Ok(count) = input.read(&mut piece) else {
            return Ok(bytes);
        };
        bytes.extend_from_slice(&piece[..count])?;
    }
    Ok(bytes)
}

/// What a store records of a name whose source is read until it ends or a read fails: one source
/// was opened, and its entry has the name and these bytes.
pub(crate) fn recorded<S: Store>(
    alloc: Global,
    store: &mut S,
    name: &[u8],
) -> Result<Vec<u8>, OutError>
    requires { IsTrue ((S.seen store.old).to_read name.now) }
    ensures opened { OnOk result ((S.seen store.new).sources.opened
        ≡ (S.seen store.old).sources.opened ++ name.now ∷ []) }
    ensures closed { IfOk result (λ bytes. (entry : Entry)
        × (entry.name ≡ name.now) × (entry.bytes ≡ bytes.items)
        × ((S.seen store.new).sources.closed
        ≡ (S.seen store.old).sources.closed ++ entry ∷ [])) }
{
    let mut input = store.fetch(name)?;
    let bytes = given_by(alloc, &mut input)?;
    store.close(input);
    Ok(bytes)
}

#[test]
fn words_have_their_bytes(rt: HostRuntime) -> Result<(), Fail> {
    assert_eq!(rt;
        Word::new(rt.alloc(), "ré")?.bytes(),
        b"r\xc3\xa9".as_slice()
    );
    assert_eq!(rt;
        Word::from_bytes(rt.alloc(), b"\xff")?.bytes(),
        b"\xff".as_slice()
    );
    Ok(())
}

/// The most bytes that one read gives, the reads that fail, and the answers of four reads of five
/// bytes.
type Answers = (usize, &'static [u64], [Result<usize, Failed>; 4]);

static SOURCES: [Answers; 4] = [
    (2, &[], [Ok(2), Ok(2), Ok(1), Ok(0)]),
    (9, &[], [Ok(4), Ok(1), Ok(0), Ok(0)]),
    (3, &[2], [Ok(3), Err(Failed), Ok(2), Ok(0)]),
    (1, &[3, 1], [Err(Failed), Ok(1), Err(Failed), Ok(1)]),
];

/// A source in memory answers as its row says.
fn check_source(rt: &impl Abort, alloc: Global, row: &Answers) -> Result<(), Fail> {
    let (piece, failing, answers) = row;
    let bytes = ByteList::from_vec(b"abcde".to_vec(alloc)?);
    let mut source = MemSource::new(bytes, (*piece).max(1), numbers(alloc, failing)?);
    let found = [
        source.read(&mut [0; 4]),
        source.read(&mut [0; 4]),
        source.read(&mut [0; 4]),
        source.read(&mut [0; 4]),
    ];
    assert_eq!(rt; (*piece, found), (*piece, *answers));
    Ok(())
}

#[test]
fn sources_give_pieces_and_fail_where_told(rt: HostRuntime) -> Result<(), Fail> {
    for row in &SOURCES {
        check_source(&rt, rt.alloc(), row)?;
    }
    Ok(())
}

#[test]
fn sinks_keep_what_they_take(rt: HostRuntime) -> Result<(), Fail> {
    let mut sink = MemSink::new(rt.alloc(), numbers(rt.alloc(), &[2])?);
    let whole = write_whole(&mut sink, b"abc");
    let failed = write_whole(&mut sink, b"de");
    let part = sink.write(b"fg");
    assert_eq!(rt;
        (whole, failed, part),
        (Ok(()), Err(OutError::Failed), Ok(2))
    );
    assert_eq!(rt; sink.written(), b"abcfg".as_slice());
    Ok(())
}

/// A store whose second fetch and whose first save fail.
fn failing_store(alloc: Global) -> Result<MemStore, AllocError> {
    Ok(MemStore::new(alloc, numbers(alloc, &[2])?, numbers(alloc, &[1])?))
}

/// The first fetch gives what was put, and the second one fails.
fn check_fetches(rt: &impl Abort, alloc: Global, store: &mut MemStore) -> Result<(), OutError> {
    let bytes = fetched(alloc, store, b"a")?;
    assert_eq!(rt; bytes.as_slice(), b"first".as_slice());
    let failed = fetched(alloc, store, b"a").err();
    assert_eq!(rt; failed, Some(OutError::Failed));
    Ok(())
}

/// A save that failed left its file as it was, and the other file was saved.
fn check_files(rt: &impl Abort, store: &MemStore) {
    assert_eq!(rt; store.file(b"a"), Some(b"first".as_slice()));
    assert_eq!(rt; store.file(b"b"), Some(b"third".as_slice()));
    assert_eq!(rt; store.file(b"c"), None);
}

#[test]
fn a_store_in_memory_fails_where_told(rt: HostRuntime) -> Result<(), Fail> {
    let mut store = failing_store(rt.alloc())?;
    let put = store.put(b"a", b"first", 3, MomentList::new(rt.alloc()));
    assert_eq!(rt; put, Ok(()));
    check_fetches(&rt, rt.alloc(), &mut store)?;
    let saves = [store.save(b"a", b"second"), store.save(b"b", b"third")];
    assert_eq!(rt; saves, [Err(OutError::Failed), Ok(())]);
    check_files(&rt, &store);
    Ok(())
}

/// The most bytes that one read gives, the reads that fail, and what is recorded of the letters
/// from a to h.
static RECORDS: [(usize, &[u64], &str); 6] = [
    (9, &[], "abcdefgh"),
    (3, &[], "abcdefgh"),
    (3, &[1], ""),
    (3, &[2], "abc"),
    (3, &[3, 2], "abc"),
    (9, &[3], "abcdefgh"),
];

/// A store in memory records what a source gave before a read of it failed.
fn check_record(
    rt: &impl Abort,
    alloc: Global,
    (piece, failing, held): &(usize, &[u64], &str),
) -> Result<(), Fail> {
    let mut store = MemStore::new(alloc, MomentList::new(alloc), MomentList::new(alloc));
    store.put(b"a", b"abcdefgh", (*piece).max(1), numbers(alloc, failing)?)?;
    let bytes = recorded(alloc, &mut store, b"a")?;
    assert_eq!(rt; (*failing, bytes.as_slice()), (*failing, held.as_bytes()));
    Ok(())
}

#[test]
fn a_store_records_what_was_given_before_a_failed_read(rt: HostRuntime) -> Result<(), Fail> {
    for row in &RECORDS {
        check_record(&rt, rt.alloc(), row)?;
    }
    Ok(())
}

/// A name of a store gives these bytes.
fn check_held(
    rt: &impl Abort,
    alloc: Global,
    store: &mut SureStore,
    name: &str,
    held: &str,
) -> Result<(), OutError> {
    let bytes = fetched(alloc, store, name.as_bytes())?;
    assert_eq!(rt; bytes.as_slice(), held.as_bytes());
    Ok(())
}

#[test]
fn a_sure_store_has_every_name(rt: HostRuntime) -> Result<(), Fail> {
    let mut store = SureStore::new(rt.alloc());
    let kept = (store.put(b"a", b"first"), store.save(b"b", b"second"));
    assert_eq!(rt; kept, (Ok(()), Ok(())));
    for (name, held) in [("a", "first"), ("b", "second"), ("c", "")] {
        check_held(&rt, rt.alloc(), &mut store, name, held)?;
    }
    Ok(())
}
