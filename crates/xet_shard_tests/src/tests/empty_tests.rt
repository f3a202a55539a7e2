//! Tests of the empty shard, and of a header that ends early.

use std::test::Fail;
use xet_hash::{HMACKey, StoreError};
use xet_shard::*;

#[test]
fn an_empty_shard(rt: HostRuntime) -> Result<(), Fail> {
    let alloc = rt.alloc();
    let (encoding, info) = write_shard(alloc, &[], &[], HMACKey::default(), 0, 0)?;
    assert!(rt; encoding.len() == 344);
    assert!(rt; info.metadata.footer_offset == 144);
    let (blocks, files, footer) = read_shard(alloc, &encoding)?;
    assert!(rt; blocks.is_empty());
    assert!(rt; files.is_empty());
    assert!(rt; footer == info.metadata);
    Ok(())
}

#[test]
fn a_header_without_its_last_byte(rt: HostRuntime) -> Result<(), Fail> {
    let prefix =
        *b"XETSHARD\0\0\0\0\0\0\0\0\0\0\0\0\0\0\0\0\0\0\0\0\0\0\0\0\x02\0\0\0\0\0\0\0\xc8\0\0\0\0\0\0";
    let read = read_shard(rt.alloc(), &prefix);
    assert!(rt; matches!(read, Err(StoreError::UnexpectedEof)));
    Ok(())
}
