ghost use Rattle.std.specs.Prelude.{◌≡◌, ◌^◌, ◌<◌, IfOk, length};

use std::alloc::{AllocError, Global};
use std::process::Abort;
use std::test::Fail;
use xet_group::*;

/// Lengths around those of words and lanes, and long ones.
const LENGTHS: [u32; 12] = [
    0, 1, 15, 16, 17, 63, 64, 65, 65_483, 65_536, 65_671, 131_072,
];

/// The bytes 0 to 250, repeated up to this length.
pub(crate) fn counting(alloc: Global, count: u32) -> Result<Vec<u8>, AllocError>
    ensures { IfOk result (λ bytes. length bytes.items ≡ count) }
{
    let mut bytes = Vec::with_capacity(alloc, count as usize)?;
    for i in 0..count {
        bytes.push((i % 251) as u8)?;
    }
    Ok(bytes)
}

#[test]
fn seven_bytes_are_split_and_put_back(rt: HostRuntime) -> Result<(), Fail> {
    let alloc = rt.alloc();
    let bytes = counting(alloc, 7)?;
    let joined = bg4_split(alloc, &bytes)?;
    assert_eq!(rt; joined.as_slice(), [0, 4, 1, 5, 2, 6, 3].as_slice());
    let [first, second, third, fourth] = bg4_split_separate(alloc, &bytes)?;
    assert_eq!(rt; first.as_slice(), [0, 4].as_slice());
    assert_eq!(rt; second.as_slice(), [1, 5].as_slice());
    assert_eq!(rt; third.as_slice(), [2, 6].as_slice());
    assert_eq!(rt; fourth.as_slice(), [3].as_slice());
    Ok(())
}

/// Every variant splits these bytes alike, and regroups them to these bytes.
fn joined_come_back(rt: &impl Abort, alloc: Global, bytes: &[u8]) -> Result<(), AllocError> {
    let joined = bg4_split(alloc, bytes)?;
    assert!(rt; bg4_split_together(alloc, bytes)? == joined);
    for back in [
        bg4_regroup(alloc, &joined)?,
        bg4_regroup_together(alloc, &joined)?,
        bg4_regroup_together_combined_write_4(alloc, &joined)?,
        bg4_regroup_together_combined_write_8(alloc, &joined)?,
    ] {
        assert!(rt; back.as_slice() == bytes);
    }
    Ok(())
}

/// The separate groups are the concatenated ones, and regroup to these bytes.
fn separate_come_back(rt: &impl Abort, alloc: Global, bytes: &[u8]) -> Result<(), AllocError> {
    let groups = bg4_split_separate(alloc, bytes)?;
    assert!(rt; groups_fit(&groups));
    assert!(rt; bg4_regroup_separate(alloc, &groups)?.as_slice() == bytes);
    let mut joined = Vec::with_capacity(alloc, bytes.len())?;
    for group in groups {
        joined.extend_from_slice(&group)?;
    }
    assert!(rt; bg4_split(alloc, bytes)? == joined);
    Ok(())
}

/// The bytes come back from their groups, concatenated and separate.
fn come_back(rt: &impl Abort, alloc: Global, bytes: &[u8]) -> Result<(), AllocError> {
    joined_come_back(rt, alloc, bytes)?;
    separate_come_back(rt, alloc, bytes)
}

#[test]
fn groups_come_back(rt: HostRuntime) -> Result<(), Fail> {
    let alloc = rt.alloc();
    come_back(&rt, alloc, &[0, 1, 2, 3, 4, 5, 6])?;
    for count in LENGTHS {
        come_back(&rt, alloc, &counting(alloc, count)?)?;
    }
    Ok(())
}

#[test]
fn other_lists_are_no_groups(rt: HostRuntime) -> Result<(), Fail> {
    let alloc = rt.alloc();
    let three = [vec![in alloc]?, vec![in alloc]?, vec![in alloc]?];
    assert!(rt; !groups_fit(&three));
    let rising = [
        vec![in alloc; 0]?,
        vec![in alloc; 1, 5]?,
        vec![in alloc; 2, 6]?,
        vec![in alloc; 3, 7]?,
    ];
    assert!(rt; !groups_fit(&rising));
    Ok(())
}

/// The histograms of these bytes by `add_data`.
fn histograms(offset: usize, bytes: &[u8]) -> [[u32; 9]; 4]
    requires { length bytes.now < 2 ^ 32 }
{
    let mut predictor = BG4Predictor::default();
    predictor.add_data(offset, bytes);
    predictor.histograms()
}

/// Every variant counts these bytes as `add_data` does.
fn counts_alike(rt: &impl Abort, offset: usize, bytes: &[u8])
    requires { length bytes.now < 2 ^ 32 }
{
    let table = histograms(offset, bytes);
    let mut reference = BG4Predictor::default();
    reference.add_data_reference(offset, bytes);
    assert!(rt; reference.histograms() == table);
    let mut first = BG4Predictor::default();
    first.add_data_v1(offset, bytes);
    assert!(rt; first.histograms() == table);
    let mut by_lanes = BG4Predictor::default();
    by_lanes.add_data_swar(offset, bytes);
    assert!(rt; by_lanes.histograms() == table);
}

#[test]
fn each_form_counts_alike(rt: HostRuntime) -> Result<(), Fail> {
    for count in LENGTHS {
        let bytes = counting(rt.alloc(), count)?;
        for offset in 0..4usize {
            counts_alike(&rt, offset, &bytes);
        }
    }
    Ok(())
}

#[test]
fn bytes_are_counted_by_place(rt: HostRuntime) {
    let none = [0; 9];
    let all_set = [0, 0, 0, 0, 0, 0, 0, 0, 1];
    assert!(rt; histograms(2, b"\xFF") == [none, none, all_set, none]);
    assert!(rt; histograms(usize::MAX, b"\xFF") == [none, none, none, all_set]);
    let six = [
        [1, 1, 0, 0, 0, 0, 0, 0, 0],
        [0, 1, 1, 0, 0, 0, 0, 0, 0],
        [0, 1, 0, 0, 0, 0, 0, 0, 0],
        [0, 0, 1, 0, 0, 0, 0, 0, 0],
    ];
    assert!(rt; histograms(0, &[0, 1, 2, 3, 4, 5]) == six);
}

/// Long inputs: a length with the hashes of its bytes split and regrouped, and their histograms from offset 3 on.
/// Computed independently, from the definition of the groups.
const LONG: [((u32, u32, u32), [[u32; 9]; 4]); 3] = [
    (
        (65_536, 0xFD24_8998, 0x8870_D8AC),
        [
            [65, 522, 1829, 3657, 4570, 3655, 1761, 325, 0],
            [65, 521, 1827, 3658, 4572, 3655, 1761, 325, 0],
            [66, 523, 1824, 3646, 4565, 3660, 1770, 330, 0],
            [66, 527, 1838, 3662, 4565, 3646, 1755, 325, 0],
        ],
    ),
    (
        (65_483, 0xBDF9_0CB0, 0x207C_B57C),
        [
            [65, 521, 1826, 3655, 4569, 3652, 1758, 325, 0],
            [65, 521, 1826, 3655, 4569, 3652, 1758, 325, 0],
            [65, 520, 1821, 3646, 4565, 3659, 1767, 327, 0],
            [66, 526, 1835, 3659, 4562, 3643, 1755, 325, 0],
        ],
    ),
    (
        (65_671, 0x765F_921C, 0xDC5F_04B8),
        [
            [65, 522, 1832, 3668, 4583, 3661, 1762, 325, 0],
            [65, 521, 1827, 3661, 4583, 3668, 1767, 326, 0],
            [66, 526, 1834, 3659, 4571, 3661, 1770, 330, 0],
            [66, 527, 1841, 3673, 4578, 3652, 1756, 325, 0],
        ],
    ),
];

/// The 32-bit FNV-1a hash.
fn fnv1a(bytes: &[u8]) -> u32 {
    let mut hash = 0x811C_9DC5u32;
    for byte in bytes {
        hash = (hash ^ u32::from(*byte)).wrapping_mul(0x0100_0193);
    }
    hash
}

/// The hashes of these bytes split, and of these bytes regrouped as if they were concatenated groups.
fn hashes(alloc: Global, bytes: &[u8]) -> Result<(u32, u32), AllocError> {
    let split = fnv1a(&bg4_split(alloc, bytes)?);
    let regrouped = fnv1a(&bg4_regroup(alloc, bytes)?);
    Ok((split, regrouped))
}

#[test]
fn long_inputs_give_known_values(rt: HostRuntime) -> Result<(), Fail> {
    for ((count, split, regrouped), table) in LONG {
        let bytes = counting(rt.alloc(), count)?;
        let found = hashes(rt.alloc(), &bytes)?;
        assert!(rt; found == (split, regrouped) && histograms(3, &bytes) == table);
    }
    Ok(())
}
