//! Real files.
use crate::failing_files::FailingFiles;
use crate::in_memory::{fetched, recorded};
use std::fs;
use std::test::Fail;
use tap_outside::{DiskStore, OutError, Store};

#[test]
fn files_that_are_there_and_not(rt: HostRuntime) -> Result<(), Fail> {
    let mut store = DiskStore::new(&rt);
    let names: [&[u8]; 5] = [b"tap_outside.none", b".", b"", b"a\0b", b"\xff"];
    for name in names {
        let failed = fetched(rt.alloc(), &mut store, name).err();
        assert_eq!(rt; (name, failed), (name, Some(OutError::Failed)));
    }
    let saved = store.save(b"tap_outside.none/file", b"x");
    assert_eq!(rt;
        (saved, store.read_faults(), store.save_faults()),
        (Err(OutError::Failed), 5, 1)
    );
    Ok(())
}

#[test]
fn what_is_saved_is_read_back(rt: HostRuntime) -> Result<(), Fail> {
    let mut store = DiskStore::new(&rt);
    for bytes in ["a longer file", "saved bytes", ""] {
        let saved = store.save(b"tap_outside.saved", bytes.as_bytes());
        assert_eq!(rt; (bytes, saved), (bytes, Ok(())));
        let read = fetched(rt.alloc(), &mut store, b"tap_outside.saved")?;
        assert_eq!(rt; read.as_slice(), bytes.as_bytes());
        let kept = recorded(rt.alloc(), &mut store, b"tap_outside.saved")?;
        assert_eq!(rt; kept.as_slice(), bytes.as_bytes());
    }
    fs::remove_file(&rt, "tap_outside.saved")?;
    assert_eq!(rt; (store.read_faults(), store.save_faults()), (0, 0));
    Ok(())
}

#[test]
fn what_was_read_before_a_failed_read_is_recorded(rt: HostRuntime) -> Result<(), Fail> {
    let files = (FailingFiles { rt: &rt }, rt.alloc());
    let mut store = DiskStore::new(&files);
    let saved = store.save(b"tap_outside.failing", b"abcdefgh");
    assert_eq!(rt; saved, Ok(()));
    let kept = recorded(rt.alloc(), &mut store, b"tap_outside.failing")?;
    assert_eq!(rt; kept.as_slice(), b"abcd".as_slice());
    fs::remove_file(&rt, "tap_outside.failing")?;
    assert_eq!(rt; (store.read_faults(), store.save_faults()), (1, 0));
    Ok(())
}
