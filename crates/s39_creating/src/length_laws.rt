//! The greatest lengths of texts, and how many lines texts have: facts about the definitions. Each is the contract of a
//! function that does nothing.
ghost use Rattle.std.specs.Prelude.{◌≡◌, ◌≤◌, ℕ, List, Ok, length};
ghost use Rattle.s39_words.specs.declared.ShareFields.{ShareFields};
ghost use Rattle.s39_set.specs.Names.{Names, AreNames};
ghost use Rattle.s39_backup.specs.declared.plan.Members.{Members};
ghost use Rattle.s39_backup.specs.Created.{Asked};
ghost use Rattle.s39_input.specs.Create.{ArePrintedLines, IsCreateOutput};
ghost use Rattle.s39_input.specs.Input.{Input, lines_in};
ghost use Rattle.s39_creating.specs.Reissue.{IsReissueOutput};
ghost use Rattle.s39_creating.specs.Lengths.{longest_backup};

use s39_words::laws::printed_forms;

/// The mnemonics of a created backup take at most 253,440 bytes, including the line feeds.
pub fn backups_are_short()
    ensures { (asked : Asked) (input : Input) (text : List ℕ)
        → IsCreateOutput asked input text (Ok tt) → length text ≤ longest_backup }
{
    printed_forms();
}

/// The mnemonics that `reissue` writes for names that shares can have take at most 253,440 bytes, including the line
/// feeds.
pub fn reissues_are_short()
    ensures { (group_threshold : ℕ) (groups : List Members) (names : Names) (input : Input)
        (text : List ℕ) → AreNames names
        → IsReissueOutput group_threshold groups names input text (Ok tt)
        → length text ≤ longest_backup }
{
    printed_forms();
}

/// The mnemonics of shares have one line each.
pub fn each_mnemonic_is_a_line()
    ensures { (shares : List ShareFields) (text : List ℕ) → ArePrintedLines shares text
        → lines_in text ≡ length shares }
{
    printed_forms();
}
