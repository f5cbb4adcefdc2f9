//! Laws of demixing, for each allowed chain of layers without binaural, each mode and weight, and every list of coded
//! samples. Each function is empty: its clauses are the laws.

ghost use Rattle.spec_demix.specs.Laws.{SomeListFits, OnlyOneFits, FixedIsNear, FittingIsSmall, FixedIsSmall, ExactFits, FirstIsRead, NextIsRead};

/// Exactly one list of the target's channels fits.
pub fn one_list_fits()
    ensures some { SomeListFits }
    ensures only { OnlyOneFits }
{}

/// The exact walk gives the list that fits, each channel over its own bottom.
pub fn the_exact_walk_fits()
    ensures { ExactFits }
{}

/// Each channel of the fixed walk differs from that of the list that fits by less than 64 units, whatever the output gains.
pub fn the_fixed_walk_is_near()
    ensures { FixedIsNear }
{}

/// Each channel of both is below 2^39 in absolute value, where samples have 32 bits and no output gain is above 32 dB.
pub fn channels_are_small()
    ensures fitting { FittingIsSmall }
    ensures fixed { FixedIsSmall }
{}

/// What a layer transmits is read in coded order, each sample times what the layer's output gain says.
pub fn layers_are_read_in_order()
    ensures first { FirstIsRead }
    ensures next { NextIsRead }
{}
