//! The outputs of an ambisonics element (IAMF 1.0.0, "Ambisonics Config Syntax and Semantics").

ghost use Rattle.std.specs.Prelude.{◌≡◌, ◌+◌, ◌*◌, ◌^◌, ◌<◌, ◌≤◌, ◌⊎◌, pos, ◌*ℤ◌, ◌≤ℤ◌, unsigned_abs, All, length, slice_index};
ghost use Rattle.spec_demix.specs.Scenes.{mapped, signed_of, coefficient, projected};
ghost use Rattle.spec_demix.specs.Sizes.{AreSamples};
ghost use Rattle.demix_layers.specs.SceneLaws.{ValidAreWhole};
ghost use Rattle.demix_layers.specs.SceneView.{IsPlayed, IsOutput};

use obu_element_config::ElementConfig;
use spec_demix::Fraction;

/// An output by its substream.
fn mapped(mapping: &[u8], coded: &[i64], c: usize) -> i128
    requires output { c < length mapping.now }
    requires substreams { All (λ n. (n ≡ 255) ⊎ (n < length coded.now)) mapping.now }
    requires samples { AreSamples coded.now }
    ensures value { result ≡ mapped coded.now (slice_index mapping.now c) }
    ensures most { unsigned_abs result ≤ length coded.now * 2 ^ 31 }
{
    let substream = mapping[c];
    if substream == 255 {
        0
    } else {
        i128::from(coded[usize::from(substream)])
    }
}

/// Two bytes as a number of 16 bits in two's complement.
fn signed(high: u8, low: u8) -> i32
    ensures value { result ≡ signed_of high low }
    ensures most { unsigned_abs result ≤ 2 ^ 15 }
{
    let number = 256 * i32::from(high) + i32::from(low);
    if high < 128 { number } else { number - 65536 }
}

/// A coefficient of a matrix.
fn coefficient(matrix: &[u8], i: usize) -> i32
    requires { 2 * i + 1 < length matrix.now }
    ensures value { result ≡ coefficient matrix.now i }
    ensures most { unsigned_abs result ≤ 2 ^ 15 }
{
    signed(matrix[2 * i], matrix[2 * i + 1])
}

fn product(coefficient: i32, y: i64) -> i128
    requires coefficient { unsigned_abs coefficient ≤ 2 ^ 15 }
    requires y { unsigned_abs y ≤ 2 ^ 31 }
    ensures value { result ≡ coefficient *ℤ y }
    ensures most { unsigned_abs result ≤ 2 ^ 46 }
{
    i128::from(coefficient) * i128::from(y)
}

/// Output `c` by the matrix, times 32768.
fn projected(matrix: &[u8], outputs: usize, channels: usize, coded: &[i64], c: usize) -> i128
    requires matrix { length matrix.now ≡ 2 * (channels * outputs) }
    requires few { channels ≤ 510 }
    requires all { channels ≡ length coded.now }
    requires output { c < outputs }
    requires samples { AreSamples coded.now }
    ensures value { result ≡ projected matrix.now outputs coded.now c channels }
    ensures most { unsigned_abs result ≤ channels * 2 ^ 46 }
{
    let mut sum: i128 = 0;
    for k in 0..channels {
        sum += product(coefficient(matrix, k * outputs + c), coded[k]);
    }
    sum
}

/// Output `c`, counted from 0, of an ambisonics element from the coded samples of one tick.
///
/// The configuration must be ambisonics as it stands in a valid element, and there must be one sample of 32 bits for each of
/// its coded channels. The output is at most 2^31 for each of them, and its bottom at most 32768.
pub fn scene_exact(config: &ElementConfig<'_>, coded: &[i64], c: usize) -> Fraction
    requires played { IsPlayed config.now (length coded.now) c }
    requires samples { AreSamples coded.now }
    ensures value { IsOutput config.now coded.now c result }
    ensures bottom { result.bottom ≤ℤ pos 32768 }
    ensures most { unsigned_abs result.top ≤ length coded.now * 2 ^ 31 * unsigned_abs result.bottom }
    ensures small { length coded.now ≤ 255 → unsigned_abs result.top < 2 ^ 39 * unsigned_abs result.bottom }
{
    match config {
        ElementConfig::Mono { mapping, .. } => Fraction {
            top: mapped(mapping, coded, c),
            bottom: 1,
        },
        ElementConfig::Projection {
            outputs,
            substreams,
            coupled,
            matrix,
        } => {
            let channels = usize::from(*substreams) + usize::from(*coupled);
            Fraction {
                top: projected(matrix, usize::from(*outputs), channels, coded, c),
                bottom: 32768,
            }
        }
        _ => unreachable!(),
    }
}

/// A law: the configuration of a valid ambisonics element has what `scene_exact` asks of its mapping or matrix.
pub fn valid_scenes_are_whole()
    ensures { ValidAreWhole }
{}
