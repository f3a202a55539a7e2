//! Tests of the shard with the xorb and the file of `abc`.

use std::test::Fail;
use xet_hash::{Reason, StoreError, compute_data_hash};
use xet_io::SliceReader;
use xet_shard::*;
use xet_shard_samples::shard_of_abc;

#[test]
fn is_written_and_read(rt: HostRuntime) -> Result<(), Fail> {
    let alloc = rt.alloc();
    let (encoding, info) = shard_of_abc(alloc)?;
    assert_eq!(rt; (encoding.len(), info.metadata.footer_offset), (672, 472));
    let name = shard_file_name(alloc, &compute_data_hash(&encoding))?;
    assert_eq!(rt;
        name.as_str(),
        "8285f56118ed97b102aafe3e2cc404ca510a016dde7acaa2c16d8c935fb38ae3.mdb"
    );
    let mut reader = SliceReader::new(&encoding);
    let (blocks, files, footer) = MDBShardInfo::check_whole(alloc, &mut reader)?;
    assert_eq!(rt; (blocks.len(), files.len()), (1, 1));
    assert_eq!(rt; footer, info.metadata);
    Ok(())
}

#[test]
fn is_refused_with_another_byte(rt: HostRuntime) -> Result<(), Fail> {
    let alloc = rt.alloc();
    let (encoding, _) = shard_of_abc(alloc)?;
    let rows = [
        (0, 0, Reason::Tag),
        (32, 3, Reason::ShardVersion),
        (40, 199, Reason::FooterSize),
    ];
    for (at, byte, reason) in rows {
        let mut other = Vec::from_slice(alloc, &encoding)?;
        if let Some(place) = other.get_mut(at) {
            *place = byte;
        }
        let read = MDBShardInfo::check_whole(alloc, &mut SliceReader::new(&other));
        assert_eq!(rt; read.err(), Some(StoreError::MalformedData(reason)));
    }
    Ok(())
}
