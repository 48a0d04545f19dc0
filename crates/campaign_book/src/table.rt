//! The table of discounts, and the slab of a campaign.

ghost use Rattle.std.specs.Prelude.{◌≡◌, ◌+◌, ◌*◌, ◌^◌, ◌<◌, ◌≤◌};
ghost use Rattle.campaign_book.specs.Discount.{decline, discount as discount_of, full_discount, slab_of as slab_of_money};

/// What each slab takes off the discount before it, in hundredths of a billionth.
pub const DECLINE: u64 = 1_586_575_000;

/// The discounts of the slabs 0 to 100, of which a full discount is 10^9.
#[rattlefmt::skip]
static DISCOUNTS: [u64; 101] = [
    1_000_000_000, 994_134_250, 988_209_843, 982_226_192, 976_182_704, 970_078_782, 963_913_820,
    957_687_209, 951_398_332, 945_046_566, 938_631_282, 932_151_845, 925_607_614, 918_997_941,
    912_322_171, 905_579_643, 898_769_690, 891_891_637, 884_944_804, 877_928_503, 870_842_039,
    863_684_710, 856_455_808, 849_154_617, 841_780_414, 834_332_469, 826_810_044, 819_212_395,
    811_538_769, 803_788_407, 795_960_542, 788_054_398, 780_069_192, 772_004_134, 763_858_426,
    755_631_261, 747_321_824, 738_929_293, 730_452_836, 721_891_615, 713_244_782, 704_511_480,
    695_690_845, 686_782_004, 677_784_075, 668_696_166, 659_517_378, 650_246_802, 640_883_521,
    631_426_607, 621_875_124, 612_228_126, 602_484_658, 592_643_755, 582_704_443, 572_665_738,
    562_526_646, 552_286_163, 541_943_275, 531_496_958, 520_946_178, 510_289_890, 499_527_039,
    488_656_560, 477_677_376, 466_588_400, 455_388_534, 444_076_670, 432_651_687, 421_112_454,
    409_457_829, 397_686_658, 385_797_775, 373_790_003, 361_662_154, 349_413_026, 337_041_407,
    324_546_072, 311_925_783, 299_179_291, 286_305_334, 273_302_638, 260_169_915, 246_905_865,
    233_509_174, 219_978_516, 206_312_552, 192_509_928, 178_569_278, 164_489_221, 150_268_364,
    135_905_298, 121_398_601, 106_746_838, 91_948_557, 77_002_293, 61_906_566, 46_659_882,
    31_260_731, 15_707_589, 0,
];

/// The discount of a slab from 0 to 100, from 10^9 for an unused budget down to 0 for a used one. Its laws
/// bound what the choice by weight loses.
pub fn discount(slab: u8) -> u64
    requires { slab ≤ 100 }
    ensures value { result ≡ discount_of slab }

    // A step down takes no more off than the decline.
    ensures covers { 101 * result ≤ 100 * discount_of (slab + 1) + decline }
    ensures never_rises { discount_of (slab + 1) ≤ result }
    ensures bounded { result ≤ full_discount }

    ensures full { slab ≡ 0 → result ≡ full_discount }
    ensures positive { slab < 100 → 0 < result }
    ensures used_up { slab ≡ 100 → result ≡ 0 }
{
    DISCOUNTS[usize::from(slab)]
}

/// The slab of a campaign: the whole hundredths of its budget, in units, that are committed.
pub fn slab_of(committed: u64, budget: u64) -> u8
    requires within { committed ≤ budget }
    requires positive { 1 ≤ budget }
    requires small { budget ≤ 10 ^ 15 }
    ensures value { result ≡ slab_of_money committed budget }
    ensures small { result ≤ 100 }
{
    let slab = 100 * committed / budget;
    slab as u8
}
