ghost use Rattle.std.specs.Prelude.{◌≤◌, ◌*◌, ℕ, IfOk};
ghost use Rattle.xet_hash.specs.Merkle.{total_len};

use crate::group_tests::counting;
use std::alloc::Global;
use std::test::Fail;
use xet_hash::*;

#[test]
fn plain_digests_are_those_of_b3sum(rt: HostRuntime) -> Result<(), Fail> {
    let alloc = rt.alloc();
    let rows = [
        (
            b"".as_slice(),
            "af1349b9f5f9a1a6a0404dea36dcc9499bcb25c9adc112b7cc9a93cae41f3262",
        ),
        (
            b"abc".as_slice(),
            "6437b3ac38465133ffb63b75273a8db548c558465d79db03fd359c6cd5bd9d85",
        ),
    ];
    for (bytes, digits) in rows {
        let found = hex::encode(alloc, plain_hash(bytes).as_bytes().as_slice())?;
        assert_eq!(rt; found.as_str(), digits);
    }
    Ok(())
}

/// The bytes of a hash as hexadecimal digits, in their own order.
fn hex_of(alloc: Global, hash: DataHash) -> Result<String, Fail> {
    Ok(hex::encode(alloc, hash.as_bytes().as_slice())?)
}

/// The standard's vectors, without a key; and the same messages with the data key.
#[test]
fn digests_of_the_standards_vectors(rt: HostRuntime) -> Result<(), Fail> {
    let alloc = rt.alloc();
    let rows: [(u32, &str, &str); 19] = [
        (
            0,
            "af1349b9f5f9a1a6a0404dea36dcc9499bcb25c9adc112b7cc9a93cae41f3262",
            "b54fe6f9a432e254a10d31999015209281ec73f50e83e9fbbf5092b6ef8493df",
        ),
        (
            1,
            "2d3adedff11b61f14c886e35afa036736dcd87a74d27b5c1510225d0f592e213",
            "131304687aea1045961c4adc552efbf02410a684d3a08a1269b0be7c61e7024a",
        ),
        (
            63,
            "e9bc37a594daad83be9470df7f7b3798297c3d834ce80ba85d6e207627b7db7b",
            "a457059ab16ebe2ec2cdce6a76c895ce0dc8832a6e76feabe9d9d8f226f80611",
        ),
        (
            64,
            "4eed7141ea4a5cd4b788606bd23f46e212af9cacebacdc7d1f4c6dc7f2511b98",
            "d8336ff3ce166a2eafcadee5dda0740440d0daf4cb040557a2298ea73b443601",
        ),
        (
            65,
            "de1e5fa0be70df6d2be8fffd0e99ceaa8eb6e8c93a63f2d8d1c30ecb6b263dee",
            "229db8d03a9f70b8dbcec4e5d3efc34c9abb6942402972a21a1f1c314493852f",
        ),
        (
            1_023,
            "10108970eeda3eb932baac1428c7a2163b0e924c9a9e25b35bba72b28f70bd11",
            "61906d32abaff230621cc94c12a02fbd8c64d83cbefde75764be89921f0a6f61",
        ),
        (
            1_024,
            "42214739f095a406f3fc83deb889744ac00df831c10daa55189b5d121c855af7",
            "74a47e96d70131f4be4619526011a9cff61233d939fb00a62777093b668e9f57",
        ),
        (
            1_025,
            "d00278ae47eb27b34faecf67b4fe263f82d5412916c1ffd97c8cb7fb814b8444",
            "3a2799b8e2001fae0da94f08223789ec07e11d9dc9e5966a715d1307df1633e1",
        ),
        (
            2_048,
            "e776b6028c7cd22a4d0ba182a8bf62205d2ef576467e838ed6f2529b85fba24a",
            "1b97dd5eebdfed21cbd68aa4279d5913000eb796b6ffe3a6a2a8d2edf93098d3",
        ),
        (
            2_049,
            "5f4d72f40d7a5f82b15ca2b2e44b1de3c2ef86c426c95c1af0b6879522563030",
            "e7bb040bbf7db32d89bf0b1f3d110cd22eb24bee36e4ce45daee12b1cfa949fa",
        ),
        (
            3_072,
            "b98cb0ff3623be03326b373de6b9095218513e64f1ee2edd2525c7ad1e5cffd2",
            "49b45346fd3d78b171074b878755f35a3d7b402a347ba89b46a0deb5e0eb175f",
        ),
        (
            3_073,
            "7124b49501012f81cc7f11ca069ec9226cecb8a2c850cfe644e327d22d3e1cd3",
            "1c39ec0727d8b557ea55ec0d09a2118819f99a5c99f457f30b1bbefc84213b47",
        ),
        (
            5_120,
            "9cadc15fed8b5d854562b26a9536d9707cadeda9b143978f319ab34230535833",
            "dc51247c47c09cf1c680cf285b74cec1393c7015408f20b7f33178fe935ba18f",
        ),
        (
            8_191,
            "bae8dc916e8643c6cf024097237cde1cba35c05b5d84c02834cb6b886edb76d9",
            "164e8c72ff81cce23d24adad8f094e73e0ae7a8383b695f0517e27be23363783",
        ),
        (
            8_192,
            "aae792484c8efe4f19e2ca7d371d8c467ffb10748d8a5a1ae579948f718a2a63",
            "8fb39ef0e738ced22e8656ee14d0243f09cf09fb036797e876d8dda9e52e7e4c",
        ),
        (
            8_193,
            "bab6c09cb8ce8cf459261398d2e7aef35700bf488116ceb94a36d0f5f1b7bc3b",
            "6145ad73322d6c2aafa41de609ee9f13676486ae4405c7f30c3ea4e8ddf94106",
        ),
        (
            16_384,
            "f875d6646de28985646f34ee13be9a576fd515f76b5b0a26bb324735041ddde4",
            "9da098f97eb55a4d5f04539afad9b034a4647bc7e8a80c7a674d136164fa0c1b",
        ),
        (
            65_537,
            "7c99f9840a73dfcb6e5bfe4ff6d1558acab7e015640790c26411818bdbe17eca",
            "5f7d598737bcb2c68b1e9bea66136609a708418a749f8ea83f9312f787d289f8",
        ),
        (
            1_048_577,
            "2f053cd7472cf0cd2f9adaf45c1180255b91b9a865404a63671a0ee5f792ed33",
            "e9d95672a930ffc95b03bab4bdc75da09cd7f9f197a413ccd56401e55d870826",
        ),
    ];
    for (length, plain, keyed) in rows {
        let bytes = counting(alloc, length)?;
        assert_eq!(rt; hex_of(alloc, plain_hash(&bytes))?.as_str(), plain);
        assert_eq!(rt;
            hex_of(alloc, definition::plain_digest(&bytes))?.as_str(),
            plain
        );
        assert_eq!(rt; hex_of(alloc, compute_data_hash(&bytes))?.as_str(), keyed);
        assert_eq!(rt;
            hex_of(alloc, definition::keyed_digest(&DATA_KEY, &bytes))?.as_str(),
            keyed
        );
    }
    Ok(())
}

#[test]
fn a_hash_goes_by_words(rt: HostRuntime) -> Result<(), Fail> {
    let mut bytes = [0u8; 32];
    for i in 0..32usize {
        bytes[i] = i as u8;
    }
    let hash = DataHash::from_bytes(bytes);
    assert_eq!(rt;
        hash.hex(rt.alloc())?.as_str(),
        "07060504030201000f0e0d0c0b0a090817161514131211101f1e1d1c1b1a1918"
    );
    assert_eq!(rt; hash.rem(4), 0);
    assert_eq!(rt; hash.rem(1_024), 280);
    assert!(rt; !hash_is_global_dedup_eligible(&hash));
    assert!(rt; hash_is_global_dedup_eligible(&DataHash::default()));
    let mut high = [0u8; 32];
    high[7] = 1;
    let mut low = [0u8; 32];
    low[0] = 255;
    assert!(rt; DataHash::from_bytes(low) < DataHash::from_bytes(high));
    assert!(rt; DataHash::default() < DataHash::from_bytes(low));
    Ok(())
}

#[test]
fn a_hash_is_read_from_its_text(rt: HostRuntime) -> Result<(), Fail> {
    let alloc = rt.alloc();
    let hash = compute_data_hash(b"abc");
    let rows = [
        (
            "a7a4503536ef03728637f985222dd18a540f11d7ee36c848f70aeb6119db62c6",
            Ok(hash),
        ),
        (
            "A7A4503536EF03728637f985222dd18a540f11d7ee36c848f70aeb6119DB62C6",
            Ok(hash),
        ),
        (
            "ffffffffffffffffffffffffffffffffffffffffffffffffffffffffffffffff",
            Ok(DataHash::marker()),
        ),
        ("xyz", Err(StoreError::MalformedData(Reason::HexText))),
        (
            "a7a4503536ef03728637f985222dd18a540f11d7ee36c848f70aeb6119db62c",
            Err(StoreError::MalformedData(Reason::HexText)),
        ),
        (
            "a7a4503536ef03728637f985222dd18a540f11d7ee36c848f70aeb6119db62c60",
            Err(StoreError::MalformedData(Reason::HexText)),
        ),
        (
            "a7a4503536ef03728637f985222dd18a540f11d7ee36c848f70aeb6119db62é",
            Err(StoreError::MalformedData(Reason::HexText)),
        ),
    ];
    for (text, found) in rows {
        assert_eq!(rt; DataHash::from_hex(text), found);
    }
    assert_eq!(rt; DataHash::from_hex(hash.hex(alloc)?.as_str())?, hash);
    Ok(())
}

/// The digest with the data key of a message that arrives in parts of these lengths, and then the rest.
fn in_pieces(bytes: &[u8], lengths: &[usize]) -> DataHash {
    let mut hasher = DataHasher::new(DATA_KEY);
    let mut rest = bytes;
    'pieces: for length in lengths {
        let (prefix, tail) = rest.split_at(rest.len().min(*length));
        hasher.update(prefix);
        rest = tail;
    }
    hasher.update(rest);
    hasher.finish()
}

#[test]
fn pieces_are_hashed_as_the_whole(rt: HostRuntime) -> Result<(), Fail> {
    let alloc = rt.alloc();
    let rows: [(u32, &[usize], &str); 16] = [
        (
            0,
            &[],
            "b54fe6f9a432e254a10d31999015209281ec73f50e83e9fbbf5092b6ef8493df",
        ),
        (
            1,
            &[0, 1],
            "131304687aea1045961c4adc552efbf02410a684d3a08a1269b0be7c61e7024a",
        ),
        (
            63,
            &[1, 62],
            "a457059ab16ebe2ec2cdce6a76c895ce0dc8832a6e76feabe9d9d8f226f80611",
        ),
        (
            64,
            &[1, 63],
            "d8336ff3ce166a2eafcadee5dda0740440d0daf4cb040557a2298ea73b443601",
        ),
        (
            65,
            &[64],
            "229db8d03a9f70b8dbcec4e5d3efc34c9abb6942402972a21a1f1c314493852f",
        ),
        (
            1_023,
            &[63, 1, 896],
            "61906d32abaff230621cc94c12a02fbd8c64d83cbefde75764be89921f0a6f61",
        ),
        (
            1_024,
            &[64, 960],
            "74a47e96d70131f4be4619526011a9cff61233d939fb00a62777093b668e9f57",
        ),
        (
            1_025,
            &[1_024],
            "3a2799b8e2001fae0da94f08223789ec07e11d9dc9e5966a715d1307df1633e1",
        ),
        (
            2_048,
            &[1_024, 1_024],
            "1b97dd5eebdfed21cbd68aa4279d5913000eb796b6ffe3a6a2a8d2edf93098d3",
        ),
        (
            3_073,
            &[1_025, 1_024],
            "1c39ec0727d8b557ea55ec0d09a2118819f99a5c99f457f30b1bbefc84213b47",
        ),
        (
            8_191,
            &[1_024, 7_167],
            "164e8c72ff81cce23d24adad8f094e73e0ae7a8383b695f0517e27be23363783",
        ),
        (
            8_192,
            &[1, 8_191],
            "8fb39ef0e738ced22e8656ee14d0243f09cf09fb036797e876d8dda9e52e7e4c",
        ),
        (
            8_193,
            &[8_192],
            "6145ad73322d6c2aafa41de609ee9f13676486ae4405c7f30c3ea4e8ddf94106",
        ),
        (
            16_384,
            &[8_193, 8_191],
            "9da098f97eb55a4d5f04539afad9b034a4647bc7e8a80c7a674d136164fa0c1b",
        ),
        (
            65_537,
            &[65_536],
            "5f7d598737bcb2c68b1e9bea66136609a708418a749f8ea83f9312f787d289f8",
        ),
        (
            1_048_577,
            &[1, 8_191, 8_192, 8_193, 65_536, 65_537, 7_168, 524_288],
            "e9d95672a930ffc95b03bab4bdc75da09cd7f9f197a413ccd56401e55d870826",
        ),
    ];
    for (length, lengths, keyed) in rows {
        let bytes = counting(alloc, length)?;
        assert_eq!(rt; hex_of(alloc, in_pieces(&bytes, lengths))?.as_str(), keyed);
    }
    Ok(())
}

#[test]
fn pieces_of_many_lengths(rt: HostRuntime) -> Result<(), Fail> {
    let rows: [(u32, &[usize]); 6] = [
        (5_120, &[1_025, 3_072]),
        (6_337, &[1, 63, 64, 65, 1_023, 1_024, 1_025, 3_072]),
        (9_000, &[3_072, 1_025, 1_024, 1_023, 65, 64, 63, 1]),
        (70_000, &[8_192, 8_193]),
        (140_000, &[65_536, 1_024, 7_168, 57_345]),
        (200_000, &[1_024, 7_167, 1, 66_560]),
    ];
    for (length, lengths) in rows {
        let bytes = counting(rt.alloc(), length)?;
        assert_eq!(rt; in_pieces(&bytes, lengths), compute_data_hash(&bytes));
    }
    Ok(())
}

#[test]
fn a_map_by_hashes(rt: HostRuntime) -> Result<(), Fail> {
    let hash = compute_data_hash(b"abc");
    let mut lengths: MerkleHashMap<u64> = MerkleHashMap::new(rt.alloc());
    lengths.insert(hash, 3)?;
    assert_eq!(rt; lengths.get(&hash).copied(), Some(3));
    assert_eq!(rt; lengths.get(&DataHash::default()).copied(), None);
    Ok(())
}

#[test]
fn hashes_of_ranges(rt: HostRuntime) -> Result<(), Fail> {
    let alloc = rt.alloc();
    let two = [compute_data_hash(&[0]), compute_data_hash(&[1])];
    let rows = [
        (
            two.as_slice(),
            "cea0cdf9cf0a14d0f72cf40a5592a307c22556121ffac2515b0ed46954f9e1bf",
        ),
        (
            &two[..0],
            "b81ce0cc7ce434c719c5f31801bc0825ead2a9ebae7419605afc00726961e5d9",
        ),
    ];
    for (hashes, text) in rows {
        assert_eq!(rt; range_hash_from_chunks(hashes).hex(alloc)?.as_str(), text);
    }
    Ok(())
}

#[test]
fn hashes_of_few_chunks(rt: HostRuntime) -> Result<(), Fail> {
    let alloc = rt.alloc();
    let abc = compute_data_hash(b"abc");
    let one = [(abc, 3u64)];
    assert_eq!(rt;
        abc.hex(alloc)?.as_str(),
        "a7a4503536ef03728637f985222dd18a540f11d7ee36c848f70aeb6119db62c6"
    );
    assert_eq!(rt; xorb_hash(alloc, &one)?, abc);
    assert_eq!(rt; xorb_hash(alloc, &[])?, DataHash::default());
    assert_eq!(rt; file_hash(alloc, &[])?, DataHash::default());
    assert_eq!(rt;
        file_hash_with_salt(alloc, &[], &[7; 32])?,
        DataHash::default()
    );
    assert_eq!(rt;
        file_hash_with_salt(alloc, &one, &[0; 32])?,
        file_hash(alloc, &one)?
    );
    assert!(rt; file_hash_with_salt(alloc, &one, &[7; 32])? != file_hash(alloc, &one)?);
    assert_eq!(rt;
        abc.hmac(DataHash::from_bytes(DATA_KEY)),
        compute_data_hash(abc.as_bytes())
    );
    assert_eq!(rt;
        file_hash(alloc, &one)?.hex(alloc)?.as_str(),
        "8679a9c73b087ee02033e84569cba8c79c2413d79f99a1e9bd1ae79ae88776cf"
    );
    Ok(())
}

/// Hashes of one-byte chunks, `count` of them but at most 100, with increasing lengths.
fn counted_chunks(alloc: Global, count: usize) -> Result<Vec<(MerkleHash, u64)>, Fail>
    ensures { IfOk result (λ chunks. total_len chunks.items ≤ 10000) }
{
    let mut chunks = Vec::new(alloc);
    for i in 0..count.min(100) {
        chunks.push((compute_data_hash(&[i as u8]), i as u64 + 1))?;
    }
    Ok(chunks)
}

#[test]
fn hashes_of_many_chunks(rt: HostRuntime) -> Result<(), Fail> {
    let alloc = rt.alloc();
    let rows = [
        (
            1usize,
            "4510ea7a68041313f0fb2e55dc4a1c96128aa0d384a610244a02e7617cbeb069",
            "b118eb6b1e0b61b6af72793e29bf136ad42b7d2052b0be0fae9a04a58e48f3b7",
        ),
        (
            2,
            "c8c08639623e52b8b6e69a77aeeab8fcf4951efd5be321ab60d3569744e9a3b5",
            "d598793a246054c0ccce9276e30f1c8072918086391c6d2368b4795e99516b43",
        ),
        (
            4,
            "d7f3cadf7dd63710aa405eff599046be98104a79db65377e841a3d5e78dc0a76",
            "61a34c20bc9ad1f998ccdaca1ac5d8d863152808e04c5f325b882a49c0dc0a8d",
        ),
        (
            9,
            "44518da73f2c1b2cef048147e544fd5fb21f5b82e37897953a2c58a789586643",
            "db5a1481e1852d0a59c92976e1c9a45826c07f894a7f8396114012df2aa467da",
        ),
        (
            20,
            "0629734c337552e33873c6026b8634f23d321a98c9c206fdfbd2202e7afc835f",
            "bdd9d612c90655265788795d64cc50e4a70827dacfba758762358668b234e36c",
        ),
        (
            100,
            "2db8e352ac3af9b0de73d49d5223e117e21cb6e41ea8c7a293f8da84b70b279f",
            "1974ed04b0d427f8f2abd3b47254d6b2ee3c28aa270d050a1dafc909ed6d61bc",
        ),
    ];
    for (count, xorb, file) in rows {
        let chunks = counted_chunks(alloc, count)?;
        assert_eq!(rt; xorb_hash(alloc, &chunks)?.hex(alloc)?.as_str(), xorb);
        assert_eq!(rt; file_hash(alloc, &chunks)?.hex(alloc)?.as_str(), file);
    }
    Ok(())
}
