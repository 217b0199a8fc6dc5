//! The greatest lengths of texts, and how many lines texts have: facts about the definitions. Each is the contract of a
//! function that does nothing.
ghost use Rattle.std.specs.Prelude.{◌≡◌, ◌≤◌, ◌+◌, ◌++◌, ℕ, List, Option, Some, Result, Ok, length};
ghost use Rattle.std.specs.List.{flat_map};
ghost use Rattle.s39_kdf.specs.Limits.{longest_secret};
ghost use Rattle.s39_set.specs.Names.{Names, AreNames};
ghost use Rattle.s39_drilling.specs.declared.drill.Done.{Done};
ghost use Rattle.s39_input.specs.declared.fault.Fault.{Fault};
ghost use Rattle.s39_kdf.specs.declared.secret_form.SecretForm.{SecretForm};
ghost use Rattle.s39_kdf.specs.declared.secret_form.SecretForm.TheVariants.{Digits};
ghost use Rattle.s39_drilling.specs.Drill.{IsDrillOutput, Listed, quorum_line, last_line};
ghost use Rattle.s39_input.specs.Input.{Input, lines_in, bytes_before_last};
ghost use Rattle.s39_drilling.specs.Lengths.{longest_listing};

use s39_backup::laws::outcomes_in_range;
use s39_input::laws::one_checked_set;
use s39_set::laws::written_forms;

/// A drill with the limit 1 writes at most 2,700 bytes: its line, and the last line. The line of all possible names with
/// the digits of the longest secret, and a last line with these names, take exactly that many.
pub fn first_lines_are_short()
    ensures most { (form : SecretForm) (passphrase : List ℕ) (after : Option Names) (input : Input)
        (text : List ℕ) (answer : Result Done Fault)
        → IsDrillOutput form passphrase after 1 input text answer
        → length text ≤ longest_listing }
    ensures reached { (names : Names) × (secret : List ℕ) × AreNames names
        × (length secret ≡ longest_secret)
        × (length (quorum_line Digits (names, Ok secret) ++ last_line (Some names)) ≡ longest_listing) }
{
    one_checked_set();
    written_forms();
    outcomes_in_range();
}

/// What a drill writes has a line for each listed quorum, and the last line. The last line starts where theirs end.
pub fn each_listed_quorum_is_a_line()
    ensures lines { (form : SecretForm) (listed : List Listed) (more : Option Names)
        → lines_in (flat_map (quorum_line form) listed ++ last_line more) ≡ length listed + 1 }
    ensures last { (form : SecretForm) (listed : List Listed) (more : Option Names)
        → bytes_before_last (flat_map (quorum_line form) listed ++ last_line more)
        ≡ length (flat_map (quorum_line form) listed) }
{}
