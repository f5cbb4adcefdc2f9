//! What gains multiply by (IAMF 1.0.0, "Mix Gain Parameter Data"). Numbers count 10^12 as one.

ghost use Rattle.std.specs.Prelude.{◌≡◌, ℕ, ◌+◌, ◌*◌, ◌/◌, ◌^◌, ◌<◌, ◌≤◌, pos, neg_ℤ, ◌≤ℤ◌};
ghost use Rattle.spec_gains.specs.Gains.{gain_of, coarse_of, high_of, low_of, fine_of, scaled, shifted};

const ONE: u64 = 1_000_000_000_000;

/// The gains of 0 to 19 dB.
const COARSE: [u64; 20] = [
    1000000000000,
    1122018454301,
    1258925411794,
    1412537544622,
    1584893192461,
    1778279410038,
    1995262314968,
    2238721138568,
    2511886431509,
    2818382931264,
    3162277660168,
    3548133892335,
    3981071705534,
    4466835921509,
    5011872336272,
    5623413251903,
    6309573444801,
    7079457843841,
    7943282347242,
    8912509381337,
];

/// The gains of 0 to 15 sixteenths of a decibel.
const HIGH: [u64; 16] = [
    1000000000000,
    1007221528792,
    1014495208062,
    1021821414416,
    1029200527180,
    1036632928419,
    1044119002958,
    1051659138400,
    1059253725147,
    1066903156421,
    1074607828283,
    1082368139655,
    1090184492339,
    1098057291039,
    1105986943381,
    1113973859936,
];

/// The gains of 0 to 15 parts of a decibel in 256.
const LOW: [u64; 16] = [
    1000000000000,
    1000449824792,
    1000899851926,
    1001350081493,
    1001800513585,
    1002251148292,
    1002701985706,
    1003153025918,
    1003604269019,
    1004055715100,
    1004507364253,
    1004959216569,
    1005411272139,
    1005863531055,
    1006315993408,
    1006768659290,
];

fn coarse(decibels: usize) -> u64
    requires { decibels < 20 }
    ensures value { result ≡ coarse_of decibels }
    ensures most { result ≤ 8912509381337 }
{
    COARSE[decibels]
}

fn high(h: usize) -> u64
    requires { h < 16 }
    ensures value { result ≡ high_of h }
    ensures most { result ≤ 1113973859936 }
{
    HIGH[h]
}

fn low(l: usize) -> u64
    requires { l < 16 }
    ensures value { result ≡ low_of l }
    ensures most { result ≤ 1006768659290 }
{
    LOW[l]
}

/// The product of two numbers, rounded down.
fn scale(x: u64, y: u64) -> u64
    requires x { x < 2 ^ 44 }
    requires y { y < 2 ^ 44 }
    ensures { result ≡ scaled x y }
{
    (u128::from(x) * u128::from(y) / u128::from(ONE)) as u64
}

/// A number times 10^e, rounded down.
fn shift(q: u64, e: i32) -> u64
    requires q { q < 2 ^ 44 }
    requires low { neg_ℤ (pos 7) ≤ℤ e }
    requires high { e ≤ℤ pos 6 }
    ensures { result ≡ shifted q e }
{
    if e >= 0 {
        q * 10u64.pow(e as u32)
    } else {
        q / 10u64.pow((-e) as u32)
    }
}

fn table_gain(g: i16) -> u64
    ensures { result ≡ gain_of g }
{
    let decibels = i32::from(g).div_euclid(256);
    let b = i32::from(g).rem_euclid(256) as usize;
    let fine = scale(high(b / 16), low(b % 16));
    let whole = scale(coarse(decibels.rem_euclid(20) as usize), fine);
    shift(whole, decibels.div_euclid(20))
}

/// The gain of `g` 1/256 dB, times 10^12 and rounded down. Up to 32 dB, which is 8192, it is at most 39810717055340.
pub fn gain(g: i16) -> u64
    ensures value { result ≡ gain_of g }
    ensures most { g ≤ℤ pos 8192 → result ≤ 39810717055340 }
{
    table_gain(g)
}
