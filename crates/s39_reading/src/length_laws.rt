//! The greatest lengths of texts: facts about the definitions. Each is the contract of a function that does nothing.
ghost use Rattle.std.specs.Prelude.{◌≤◌, ℕ, List, Ok, length};
ghost use Rattle.s39_input.specs.Input.{Input};
ghost use Rattle.s39_reading.specs.Status.{IsStatusOf, IsStatusOutput};
ghost use Rattle.s39_words.specs.declared.ShareFields.{ShareFields};
ghost use Rattle.s39_set.specs.ShareSet.{IsShareSet};
ghost use Rattle.s39_set.specs.declared.status.Status.{Status};
ghost use Rattle.s39_reading.specs.Lengths.{longest_status};

use s39_input::laws::accepted_inputs_are_share_sets;

/// The lines that `status` writes take at most 1,638 bytes.
pub fn statuses_are_short()
    ensures { (input : Input) (text : List ℕ) (status : Status)
        → IsStatusOutput input text (Ok status) → length text ≤ longest_status }
{
    accepted_inputs_are_share_sets();
}

/// The lines that `status` writes for a share set take at most 1,638 bytes.
pub fn statuses_of_sets_are_short()
    ensures { (set : List ShareFields) → IsShareSet set → (text : List ℕ) (status : Status)
        → IsStatusOf set text (Ok status) → length text ≤ longest_status }
{}
