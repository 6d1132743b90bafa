use crate::given::MASK_KEY;
use hail_field::Symbol;
use mask_tag::*;

// A ChaCha20 written in Python from RFC 8439 computed the values of this file.
/// The masks of rows 5, 2^40 + 1 and 2^64 - 1.
const MASKS: [Symbol; 3] = [
    Symbol(132_404_573_127_933_671_675_181_182_103_192_641_507),
    Symbol(84_677_465_710_808_750_392_760_207_484_068_712_142),
    Symbol(98_766_597_404_400_273_572_257_413_031_661_977_278),
];

#[test]
fn masks_are_as_computed_elsewhere(rt: HostRuntime) {
    let masks = [
        mask(&MASK_KEY, 5),
        mask(&MASK_KEY, (1 << 40) + 1),
        mask(&MASK_KEY, u64::MAX),
    ];
    assert_eq!(rt; masks, MASKS);
}

/// Those of a block of six.
const BLOCK: [Symbol; 6] = [
    Symbol(31_260_199_018_784_472_631_801_668_278_117_275_176),
    Symbol(188_417_656_135_743_284_463_310_311_914_075_700_201),
    Symbol(282_612_794_951_351_476_611_725_552_516_256_906_284),
    Symbol(262_427_142_420_750_215_065_805_825_723_154_265_757),
    Symbol(35_197_396_585_757_088_927_215_211_191_803_504_645),
    Symbol(162_872_769_359_184_709_944_573_996_126_273_346_862),
];

#[test]
fn masks_of_a_block_are_as_computed_elsewhere(rt: HostRuntime) {
    let mut masks = [Symbol::ZERO; 6];
    mask_block(&MASK_KEY, 1, &mut masks);
    assert_eq!(rt; masks, BLOCK);
}
