// The choice of a word from full chips, in octets, at 1, 2 and 5.5 Mbit/s: what `choose_by_counts` does with
// counts. A full chip of a hard recording counts 1024, so the same word is chosen, its lead in counts is 1024 times as
// large, and sixteen symbols go side by side where counts have room for four. Arrays of chips dissolve in the one loop
// over symbols that calls `decide_barker` or `decide_five`.
#![tactic(auto)]

ghost use Rattle.std.specs.Prelude.{map};
ghost use Rattle.choose_axes.specs.Axes.{unit_of};
ghost use Rattle.rules_choosing.specs.Scores.{ChosenAs};

use choose_axes::Axis;
use choose_words::Choice;
use rules_chips::Chip;
use rules_rates::Rate;

// The phase that a Barker symbol is decided as, at 1 and at 2 Mbit/s, and its lead in full chips.
pub fn decide_barker(chips: [Chip; 11]) -> Choice<u8>
    ensures answer { ChosenAs Rate.One (map unit_of chips) result.number result.lead }
{
    choose_words::barker(
        choose_axes::hard_units(chips, Axis::I),
        choose_axes::hard_units(chips, Axis::Q),
    )
}

// The word that a symbol of 5.5 Mbit/s is decided as, and its lead in full chips.
pub fn decide_five(chips: [Chip; 8]) -> Choice<u8>
    ensures answer { ChosenAs Rate.Five (map unit_of chips) result.number result.lead }
{
    choose_words::five(
        choose_axes::hard_units(chips, Axis::I),
        choose_axes::hard_units(chips, Axis::Q),
    )
}
