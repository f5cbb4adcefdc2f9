//! The kernel, which demixes a scalable element in whole units of 1/2^28.

ghost use Rattle.std.specs.Prelude.{◌≡◌, ◌≢◌, ◌+◌, ◌*◌, ◌^◌, ◌<◌, ◌≤◌, ◌≤ℤ◌, ◌⊎◌, ℕ, All, IsTrue, length, map, pos, take, unsigned_abs};
ghost use Rattle.std.specs.List.{AllZip};
ghost use Rattle.spec_gains.specs.Modes.{coefficients_of, AreBounded, IsMode};
ghost use Rattle.spec_layouts.specs.Layouts.{channels};
ghost use Rattle.spec_demix.specs.Kinds.{kind_of};
ghost use Rattle.spec_demix.specs.Values.{value_of};
ghost use Rattle.spec_demix.specs.Downmix.{Channels};
ghost use Rattle.spec_demix.specs.Sent.{IsLayers};
ghost use Rattle.spec_demix.specs.Fits.{FitsOver, target_channels};
ghost use Rattle.spec_demix.specs.FixedWalk.{fixed_row};
ghost use Rattle.spec_demix.specs.Sizes.{AreSamples, IsNear};
ghost use Rattle.spec_demix.specs.Elements.{demix_layers_of};
ghost use Rattle.obu_element_config.specs.LayerView.{view_layer};
ghost use Rattle.demix_channels.specs.Gains.{HaveModestGains};
ghost use Rattle.demix_channels.specs.Room.{AreWithin};
ghost use Rattle.mix_fixed.specs.Kernel.{target_of, IsPrepared};
ghost use Rattle.mix_fixed.specs.Origins.{bed_from};
ghost use Rattle.mix_fixed.specs.Quiet.{AreShort, OfBed, IsQuiet};
ghost use Rattle.mix_fixed.specs.Scaled.{scaled_bed};

use crate::gathering::gather;
use crate::narrow;
use crate::origins::{Origins, origins_of};
use crate::scaled::{Most, ScaledBed, most_of, scaled_bed};
use crate::steps::bed;
use demix_channels::{DemixParams, demix_layer};
use obu_element_config::Layer;
use spec_demix::DemixLayer;
use spec_layouts::Layout;
use std::marker::Model;

/// Demixes an element to one of its layers, the target, in units of 1/2^28. It stands for the layers up to the target.
#[derive(Drop)]
pub struct Kernel {
    layers: [DemixLayer; 6],
    count: usize,
    origins: Origins,
    /// What is sent, with its factors in units.
    scaled: ScaledBed,
    /// The largest of both parts of the factors.
    most: Most,
}

impl Model for Kernel {
    ghost use Rattle.std.specs.Prelude.{List, take};
    ghost use Rattle.spec_demix.specs.declared.DemixLayer.{DemixLayer};
    ghost use Rattle.mix_fixed.specs.Kernel.{IsKernel, IsPrepared};

    ghost Value = { List DemixLayer };

    ghost view = { λ kernel. take kernel.count kernel.layers };

    ghost invariant = { λ kernel. IsKernel kernel.count (take kernel.count kernel.layers) kernel.origins × IsPrepared kernel.origins.sent kernel.scaled kernel.most };
}

impl Kernel {
    /// A kernel for layer `target` of an element, counted from 0. The layers up to it must be an allowed chain without
    /// binaural whose output gains are at most 32 dB.
    pub fn new(layers: &[Layer], target: usize) -> Kernel
        requires target { target < length layers.now }
        requires chain { IsLayers (demix_layers_of (map view_layer layers.now)) target }
        requires gains { HaveModestGains layers.now target }
        ensures layers { result ≡ take (target + 1) (demix_layers_of (map view_layer layers.now)) }
        ensures channels { target_channels result (target_of result) ≡ target_channels (demix_layers_of (map view_layer layers.now)) target }
    {
        let silent = DemixLayer {
            layout: Layout::Mono,
            flags: 0,
            factor: 0,
        };
        let mut kept = [silent; 6];
        for i in 0..target + 1 {
            kept[i] = demix_layer(&layers[i]);
        }
        let origins = origins_of(&kept[..target + 1]);
        let scaled = scaled_bed(&origins.sent);
        Kernel {
            layers: kept,
            count: target + 1,
            origins,
            scaled,
            most: most_of(&scaled),
        }
    }

    /// Writes the target's channels, in the order of a WAV file and in units of 1/2^28, from the coded samples of one tick.
    ///
    /// The coded samples have 32 bits and stand in coded order, at least one for each channel of the target. The weight is at
    /// most 5000. Each channel is less than 64 units from that of the one list of channels that fits the coded samples, and
    /// is below 2^39.
    pub fn demix<const C: usize>(&self, params: DemixParams, coded: &[i64], out: &mut [i128; C])
        requires count { C ≡ length (target_channels self.now (target_of self.now)) }
        requires mode { IsMode params.mode }
        requires weight { params.weight ≤ 5000 }
        requires samples { AreSamples coded.now }
        requires room { C ≤ length coded.now }
        ensures value { out.new ≡ fixed_row self.now (target_of self.now) (coefficients_of params.mode) params.weight coded.now }
        ensures near { (bottom : ℕ) → (x : Channels) → FitsOver self.now (target_of self.now) (coefficients_of params.mode) params.weight coded.now bottom x → AllZip (IsNear bottom x) (target_channels self.now (target_of self.now)) out.new }
        ensures small { All (λ channel. unsigned_abs channel < 2 ^ 39 * 2 ^ 28) out.new }
    {
        let layers = &self.layers[..self.count];
        let layout = layers[layers.len() - 1].layout;
        write(
            layout,
            &self.origins,
            &self.scaled,
            self.most,
            params,
            coded,
            out,
        );
    }
}

/// Whether samples have 25 bits: then 64 bits hold them in units under each output gain.
fn are_short(coded: &[i64]) -> bool
    ensures { IsTrue result → AreShort coded.now }
{
    coded.iter().all(|y| y.unsigned_abs() <= 0x100_0000)
}

/// Whether 64 bits hold each sample in units: no channel is made louder, or samples are short.
#[inline(always)]
fn are_held(most: Most, coded: &[i64]) -> bool
    ensures { IsTrue result → (most.whole ≤ℤ pos (2 ^ 28)) ⊎ AreShort coded.now }
{
    if most.is_calm() {
        true
    } else {
        are_short(coded)
    }
}

/// Writes the target's channels, in 64 bits where those hold every channel.
fn write<const C: usize>(
    layout: Layout,
    origins: &Origins,
    scaled: &ScaledBed,
    most: Most,
    params: DemixParams,
    coded: &[i64],
    out: &mut [i128; C],
)
    requires speakers { layout ≢ Layout.Binaural }
    requires count { C ≡ length (channels layout) }
    requires known { IsMode params.mode }
    requires mode { AreBounded (coefficients_of params.mode) }
    requires weight { params.weight ≤ 5000 }
    requires within { AreWithin (length coded.now) origins.now.sent }
    requires samples { AreSamples coded.now }
    requires prepared { IsPrepared origins.now.sent scaled.now most }
    ensures { out.new ≡ map (value_of (kind_of layout) (bed_from origins.now (coefficients_of params.mode) params.weight coded.now)) (channels layout) }
{
    if most.is_whole() {
        write_narrow::<C, true>(layout, origins, scaled, params, coded, out);
    } else if are_held(most, coded) {
        write_narrow::<C, false>(layout, origins, scaled, params, coded, out);
    } else {
        write_wide(layout, origins, params, coded, out);
    }
}

/// Writes the target's channels by way of 64 bits.
#[inline(always)]
fn write_narrow<const C: usize, const PLAIN: bool>(
    layout: Layout,
    origins: &Origins,
    scaled: &ScaledBed,
    params: DemixParams,
    coded: &[i64],
    out: &mut [i128; C],
)
    requires speakers { layout ≢ Layout.Binaural }
    requires count { C ≡ length (channels layout) }
    requires known { IsMode params.mode }
    requires mode { AreBounded (coefficients_of params.mode) }
    requires weight { params.weight ≤ 5000 }
    requires scaled { scaled.now ≡ scaled_bed origins.now.sent }
    requires quiet { OfBed (IsQuiet PLAIN coded.now) scaled.now }
    ensures { out.new ≡ map (value_of (kind_of layout) (bed_from origins.now (coefficients_of params.mode) params.weight coded.now)) (channels layout) }
{
    let bed = narrow::bed::<PLAIN>(origins, params, scaled, coded);
    gather(layout, &bed, out);
}

/// Writes the target's channels by way of 128 bits.
#[cold]
#[inline(never)]
fn write_wide<const C: usize>(
    layout: Layout,
    origins: &Origins,
    params: DemixParams,
    coded: &[i64],
    out: &mut [i128; C],
)
    requires speakers { layout ≢ Layout.Binaural }
    requires count { C ≡ length (channels layout) }
    requires mode { AreBounded (coefficients_of params.mode) }
    requires weight { params.weight ≤ 5000 }
    requires within { AreWithin (length coded.now) origins.now.sent }
    requires samples { AreSamples coded.now }
    ensures { out.new ≡ map (value_of (kind_of layout) (bed_from origins.now (coefficients_of params.mode) params.weight coded.now)) (channels layout) }
{
    let bed = bed(origins, params, coded);
    gather(layout, &bed, out);
}
