//! Tests of names, of SHA-256 text, of boundary offsets and of a shard in memory.

ghost use Rattle.std.specs.Prelude.{◌≡◌};
ghost use Rattle.xet_shard.specs.Held.{nothing};

use std::alloc::Global;
use std::test::Fail;
use xet_base::Items;
use xet_hash::{MerkleHash, Reason, StoreError};
use xet_io::{MemorySink, SliceReader};
use xet_shard::*;
use xet_shard_samples::release;

#[test]
fn a_shard_has_its_digests_name(rt: HostRuntime) -> Result<(), Fail> {
    let hash = MerkleHash::from_bytes([
        1, 2, 3, 4, 5, 6, 7, 8, 9, 10, 11, 12, 13, 14, 15, 16, 17, 18, 19, 20, 21, 22, 23, 24, 25,
        26, 27, 28, 29, 30, 31, 32,
    ]);
    let name = shard_file_name(rt.alloc(), &hash)?;
    assert_eq!(rt;
        name.as_str(),
        "0807060504030201100f0e0d0c0b0a091817161514131211201f1e1d1c1b1a19.mdb"
    );
    assert_eq!(rt; parse_shard_filename(name.as_str()), Some(hash));
    assert_eq!(rt; truncate_hash(&hash), 0x0807060504030201);
    Ok(())
}

#[test]
fn other_names_are_of_no_shard(rt: HostRuntime) -> Result<(), Fail> {
    let names = [
        "",
        ".mdb",
        "0807060504030201100f0e0d0c0b0a091817161514131211201f1e1d1c1b1a19",
        "0807060504030201100F0e0d0c0b0a091817161514131211201f1e1d1c1b1a19.mdb",
        "807060504030201100f0e0d0c0b0a091817161514131211201f1e1d1c1b1a19.mdb",
        "d/0807060504030201100f0e0d0c0b0a091817161514131211201f1e1d1c1b1a19.mdb",
        "0807060504030201100f0e0d0c0b0a091817161514131211201f1e1d1c1b1a19.mdb.mdb",
    ];
    for name in names {
        assert_eq!(rt; parse_shard_filename(name), None, "{name}");
    }
    Ok(())
}

#[test]
fn sha256_is_64_digits(rt: HostRuntime) -> Result<(), Fail> {
    let digest = Sha256::from_hex(
        "BA7816BF8F01CFEA414140DE5DAE2223B00361A396177A9CB410FF61F20015AD",
    )?;
    assert_eq!(rt;
        digest.hex(rt.alloc())?.as_str(),
        "ba7816bf8f01cfea414140de5dae2223b00361a396177a9cb410ff61f20015ad"
    );
    let short = Sha256::from_hex("ba7816bf8f01cfea414140de5dae2223b00361a396177a9cb410ff61f20015a");
    assert!(rt; matches!(short, Err(StoreError::MalformedData(Reason::HexText))));
    Ok(())
}

#[test]
fn boundaries_are_running_sums(rt: HostRuntime) -> Result<(), Fail> {
    let alloc = rt.alloc();
    let first = MerkleHash::from_bytes([1; 32]);
    let second = MerkleHash::from_bytes([2; 32]);
    let xorb = MDBXorbInfo {
        metadata: XorbChunkSequenceHeader::new(MerkleHash::default(), 2, 30),
        chunks: Items::from_vec(vec![in alloc;
            XorbChunkSequenceEntry::new(first, 10, 0),
            XorbChunkSequenceEntry::new(second, 20, 10),
        ]?),
    };
    let found = xorb.chunks_and_boundaries(alloc)?;
    assert_eq!(rt; found.as_slice(), [(first, 10), (second, 30)].as_slice());
    Ok(())
}

/// Adds a xorb and a file to an empty shard, and writes it at time 7. Returns its header and footer, and its length.
fn added_and_written(
    alloc: Global,
    shard: &mut MDBInMemoryShard,
    sink: &mut MemorySink,
) -> Result<(MDBShardInfo, u64), StoreError>
    requires { shard.old ≡ nothing }
{
    shard.add_xorb_block(MDBXorbInfo::default(alloc))?;
    shard.add_file_reconstruction_info(MDBFileInfo::default(alloc))?;
    let info = shard.serialize_from(alloc, sink, 7, None)?;
    Ok((info, shard.shard_file_size()))
}

#[test]
fn what_is_held_is_written(rt: HostRuntime) -> Result<(), Fail> {
    let alloc = rt.alloc();
    let mut shard = MDBInMemoryShard::new(alloc);
    let mut sink = MemorySink::new(alloc);
    let answer = added_and_written(alloc, &mut shard, &mut sink);
    release(shard);
    let (info, size) = answer?;
    let bytes = sink.bytes();
    let (blocks, files, footer) = MDBShardInfo::check_whole(alloc, &mut SliceReader::new(bytes))?;
    assert_eq!(rt;
        (bytes.len() as u64, blocks.len(), files.len()),
        (size, 1, 1)
    );
    assert_eq!(rt; footer, info.metadata);
    Ok(())
}
