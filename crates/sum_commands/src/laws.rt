//! Laws of the sums of inputs.

ghost use Rattle.std.specs.Prelude.{◌⊎◌, ℕ, Bool};
ghost use Rattle.reading_sums.specs.Whole.{IsWellFormed};
ghost use Rattle.sum_commands.specs.declared.summing.Summed.{Summed as Sum};
ghost use Rattle.sum_commands.specs.Sources.{AreAlike, AreFixedInputs, HasRoom, IsSumOfAllInputs};

use crate::summing::Source;

/// The number of workers makes no difference. If the input at each place of a source can only be one thing, like that
/// of a file that does not change, all inputs have one sum: any two sums of them, as `sum_of_inputs` returns them for
/// any number of workers, have the same totals and notes, leave out the same inputs for the same faults, and are
/// damaged alike; if they are well formed, they have the same histograms and the same report. This holds if the inputs
/// are whole, or if neither sum leaves one out with `TooMany` [alike]. Sums of whole inputs are well formed
/// [well_formed].
///
/// It does nothing: what it promises is a law of the definitions.
pub fn workers_are_nothing<S: Source>(_source: &S)
    ensures alike { (is_strict : Bool) (inputs : ℕ) (a b : Sum) → AreFixedInputs (S.may_be _source.now) → S.are_whole _source.now ⊎ (HasRoom a × HasRoom b) → IsSumOfAllInputs (S.are_whole _source.now) (S.may_be _source.now) is_strict inputs a → IsSumOfAllInputs (S.are_whole _source.now) (S.may_be _source.now) is_strict inputs b → AreAlike a b }
    ensures well_formed { S.are_whole _source.now → (is_strict : Bool) (inputs : ℕ) (a : Sum) → IsSumOfAllInputs (S.are_whole _source.now) (S.may_be _source.now) is_strict inputs a → IsWellFormed a.sums }
{}
