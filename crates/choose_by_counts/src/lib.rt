// The choice of a word from counts, at 1, 2 and 5.5 Mbit/s: the largest score wins, among equals the smallest number,
// and its lead over the best of the others is told.
// Each function is called from one loop over symbols, in which its array of chips dissolves.
#![tactic(auto)]

ghost use Rattle.std.specs.Prelude.{map};
ghost use Rattle.rules_chips.specs.Chips.{counts_of};
ghost use Rattle.choose_axes.specs.Axes.{AllSoft};
ghost use Rattle.rules_choosing.specs.Scores.{ChosenAs};

use choose_axes::Axis;
use choose_words::Choice;
use rules_chips::Chip;
use rules_rates::Rate;

// The phase that a Barker symbol is decided as, at 1 and at 2 Mbit/s, and its lead in counts.
pub fn decide_barker(chips: [Chip; 11]) -> Choice<u32>
    requires { AllSoft 11 chips }
    ensures answer { ChosenAs Rate.One (map counts_of chips) result.number result.lead }
{
    choose_words::barker(
        choose_axes::soft_counts(chips, Axis::I),
        choose_axes::soft_counts(chips, Axis::Q),
    )
}

// The word that a symbol of 5.5 Mbit/s is decided as, and its lead in counts.
pub fn decide_five(chips: [Chip; 8]) -> Choice<u32>
    requires { AllSoft 8 chips }
    ensures answer { ChosenAs Rate.Five (map counts_of chips) result.number result.lead }
{
    choose_words::five(
        choose_axes::soft_counts(chips, Axis::I),
        choose_axes::soft_counts(chips, Axis::Q),
    )
}
