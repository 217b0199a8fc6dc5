//! Facts about the definitions. Each is the contract of a function that does nothing.
ghost use Rattle.std.specs.Prelude.{◌≡◌, ◌≢◌, ◌<◌, ◌≤◌, ◌⊎◌, ◌↔◌, ℕ, length, List, [], ◌∷◌, ◌++◌, All, Contains, Bool, true, false, Result, Ok, Err, IfOk, Option, Some, None};
ghost use Rattle.s39_kdf.specs.Causes.{fingerprint_cause};
ghost use Rattle.s39_words.specs.declared.ShareFields.{ShareFields};
ghost use Rattle.s39_words.specs.Reading.{Reads};
ghost use Rattle.s39_words.specs.declared.word_error.WordError.{WordError};
ghost use Rattle.s39_set.specs.Causes.{cursor_cause, names_cause};
ghost use Rattle.s39_set.specs.Names.{Names, AreNames};
ghost use Rattle.s39_set.specs.Written.{quorum_text};
ghost use Rattle.s39_input.specs.Lengths.{longest_names};
ghost use Rattle.s39_set.specs.ShareSet.{IsShareSet};
ghost use Rattle.s39_input.specs.declared.fault.LineRefusal.{LineRefusal};
ghost use Rattle.s39_input.specs.declared.fault.LineRefusal.TheVariants.{TooLong, Word};
ghost use Rattle.s39_input.specs.declared.fault.Refusal.{Refusal};
ghost use Rattle.s39_input.specs.declared.fault.RefusedLine.{RefusedLine};
ghost use Rattle.s39_input.specs.declared.fault.Stop.{Stop};
ghost use Rattle.s39_input.specs.declared.fault.Stop.TheVariants.{AtLine, ReadFailed};
ghost use Rattle.s39_input.specs.declared.lines.TheConstants.{MAX_LINE_BYTES};
ghost use Rattle.s39_input.specs.declared.fault.Fault.{Fault};
ghost use Rattle.s39_input.specs.declared.judging.Judged.{Judged};
ghost use Rattle.s39_input.specs.Judging.{judgement, mate_shares, mates};
ghost use Rattle.s39_input.specs.Fault.{cause_of};
ghost use Rattle.s39_input.specs.Runs.{ReadsAreFew};
ghost use Rattle.s39_input.specs.Show.{IsShowOutput};
ghost use Rattle.s39_input.specs.Repair.{IsRepairOutput, TwoFit};
ghost use Rattle.s39_input.specs.Input.{Input, is_skipped, longest_line, whole, lines_of};
ghost use Rattle.s39_input.specs.Lines.{Holds, IsReadable, share_in};
ghost use Rattle.s39_input.specs.Accepted.{IsReadAs, IsSetOf, CheckedSetLaws, shares_in};
ghost use Rattle.s39_input.specs.Refused.{AreAccepted, IsFirstRefused};
ghost use Rattle.s39_backup.specs.Plan.{IsPlan, plan_cause_of};
ghost use Rattle.s39_backup.specs.declared.plan_error.PlanError.{PlanError};
ghost use Rattle.s39_backup.specs.Created.{Asked, AreOfBackup};
ghost use Rattle.s39_input.specs.Create.{IsCreateOutput};
ghost use Rattle.s39_input.specs.OfBackup.{HoldsMnemonicsOf};

use s39_backup::laws::shares_of_a_backup_agree;
use s39_kdf::laws::passphrases_are_printable_or_not;
use s39_repair::laws::{one_answer, some_answer};
use s39_words::laws::{every_share_has_a_printed_form, one_printed_form, printed_forms};

/// The limit of the code is that of the definitions.
pub fn numbers()
    ensures line { MAX_LINE_BYTES ≡ longest_line }
{}

/// No refusal has the number 16, which another refusal once had.
pub fn number_16_is_free()
    ensures runs { (refusal : Refusal) → (cause_of refusal).code ≢ 16 }
    ensures plans { (error : PlanError) → (plan_cause_of error).code ≢ 16 }
    ensures cursors { cursor_cause.code ≢ 16 }
    ensures names { names_cause.code ≢ 16 }
    ensures fingerprints { fingerprint_cause.code ≢ 16 }
{}

/// A reader that tells its bytes is read at most once for each byte that it loses, and once more. If bytes are left and no read
/// failed, there is no further read.
pub fn reads_are_few<R>()
    ensures { (remaining : R → Option (List ℕ)) → ReadsAreFew remaining }
{}

/// An input is read as at most one thing: one set of shares, or one refusal.
pub fn one_set()
    ensures { (input : Input) (answer another : Result (List ShareFields) (Stop LineRefusal))
        → IsReadAs input answer → IsReadAs input another → answer ≡ another }
{}

/// Every input is read as something: a share set, or a refusal.
pub fn every_input_is_read()
    ensures { (input : Input)
        → (answer : Result (List ShareFields) (Stop LineRefusal))
        × IsReadAs input answer × IfOk answer IsShareSet }
{}

/// If an input is accepted, it is read as a share set.
pub fn accepted_inputs_are_share_sets()
    ensures { (input : Input) (set : List ShareFields) → IsReadAs input (Ok set) → IsShareSet set }
{}

/// A line that is too long is refused for that. Otherwise it holds nothing if it is skipped. A line that isn't skipped holds
/// the share that it is read as, or it is refused for the error of its reading.
pub fn lines_hold_what_they_are_read_as()
    ensures too_long { (line : List ℕ) → longest_line < length line → share_in line ≡ Err TooLong }
    ensures skipped { (line : List ℕ) → length line ≤ longest_line → is_skipped line ≡ true
        → Holds line None }
    ensures read { (line : List ℕ) (share : ShareFields) → length line ≤ longest_line
        → is_skipped line ≡ false → Reads line (Ok share) → Holds line (Some share) }
    ensures refused { (line : List ℕ) (error : WordError) → length line ≤ longest_line
        → is_skipped line ≡ false → Reads line (Err error) → share_in line ≡ Err (Word error) }
{}

/// If an input is accepted, it ended, and the set has exactly the shares of its lines, each once, in the order of their
/// names. None of its lines is refused by itself.
pub fn sets_have_the_shares_of_their_lines()
    ensures shares { (input : Input) (set : List ShareFields) → IsReadAs input (Ok set)
        → (input.ended ≡ true) × IsSetOf (shares_in (lines_of input)) set }
    ensures readable { (input : Input) (set : List ShareFields) → IsReadAs input (Ok set)
        → All IsReadable (lines_of input) }
{}

/// If an input is refused at a line, the lines before it are accepted. This line is the first that is refused, by itself
/// or because its share can't join the set of theirs, and the refusal has its number. If a read failed, all lines that
/// came are accepted.
pub fn lines_before_a_refusal_are_accepted()
    ensures refused { (input : Input) (refused : RefusedLine LineRefusal)
        → IsReadAs input (Err (AtLine refused)) → IsFirstRefused (lines_of input) refused }
    ensures failed { (input : Input) → IsReadAs input (Err ReadFailed)
        → (input.ended ≡ false) × ((set : List ShareFields) × AreAccepted (lines_of input) set) }
{}

/// A passphrase and an input give one set, which is a share set, or one fault.
pub fn one_checked_set()
    ensures { CheckedSetLaws }
{
    passphrases_are_printable_or_not();
    every_input_is_read();
    one_set();
    accepted_inputs_are_share_sets();
}

/// Mnemonics of a created backup, in any order and with repeats, are read as a set of its shares.
pub fn mnemonics_are_read_as_their_shares()
    ensures { (passphrase secret : List ℕ) (input : Input)
        (mnemonics : HoldsMnemonicsOf passphrase secret input)
        → (set : List ShareFields) × IsReadAs input (Ok set)
        × All (Contains mnemonics.shares) set }
{
    shares_of_a_backup_agree();
}

/// Mnemonics of a created backup, in any order and with repeats, are read as the set of their shares.
pub fn mnemonics_of_a_backup_are_a_set()
    ensures { (passphrase secret : List ℕ) (input : Input)
        → HoldsMnemonicsOf passphrase secret input
        → (set : List ShareFields) × IsReadAs input (Ok set) × AreOfBackup set passphrase secret }
{
    mnemonics_are_read_as_their_shares();
}

/// What `create` writes for random bytes holds the mnemonics of its backup. So does an input that has some of its
/// lines, in any order and with repeats, and blank lines and comments.
pub fn written_mnemonics_are_of_the_backup()
    ensures all_lines { (asked : Asked) (random text : List ℕ)
        → IsPlan asked.group_threshold asked.groups → IsCreateOutput asked (whole random) text (Ok tt)
        → HoldsMnemonicsOf asked.passphrase asked.secret (whole text) }
    ensures some_lines { (asked : Asked) (random text bytes : List ℕ)
        → IsPlan asked.group_threshold asked.groups → IsCreateOutput asked (whole random) text (Ok tt)
        → All (λ line. Holds line None ⊎ Contains (lines_of (whole text)) line) (lines_of (whole bytes))
        → HoldsMnemonicsOf asked.passphrase asked.secret (whole bytes) }
{
    printed_forms();
}

/// If a mnemonic is judged, its set is a share set. It has exactly the shares of the lines that have its identifier, and the
/// mnemonic's own, each once, in the order of their names. The mnemonic's share is told to be there again exactly if it is
/// among those of the lines.
pub fn judged_sets_have_their_shares()
    ensures is_set { (lines line : List ℕ) (judged : Judged) → judgement lines line ≡ Ok judged
        → IsShareSet judged.set }
    ensures shares { (lines line : List ℕ) (judged : Judged) → judgement lines line ≡ Ok judged
        → IsSetOf (judged.share ∷ mate_shares judged.share.id lines) judged.set }
    ensures again { (lines line : List ℕ) (judged : Judged) → judgement lines line ≡ Ok judged
        → (judged.again ≡ true ↔ Contains (mate_shares judged.share.id lines) judged.share) }
{}

/// Lines whose shares all have one identifier are read as the set of the shares with this identifier.
pub fn lines_of_one_backup_are_read_as_mates()
    ensures { (id : ℕ) (lines : List ℕ)
        → All (λ line. (share : ShareFields) → Holds line (Some share) → share.id ≡ id) (lines_of (whole lines))
        → IsReadAs (whole lines) (mates id lines) }
{}

/// If a judged mnemonic is taken as a line behind the others, the shares with its identifier then are the set of the judgement.
pub fn judged_mnemonics_are_taken()
    ensures { (lines line : List ℕ) (judged : Judged) → judgement lines line ≡ Ok judged
        → Holds line (Some judged.share) → lines_of (whole line) ≡ line ∷ []
        → mates judged.share.id (lines ++ 10 ∷ line) ≡ Ok judged.set }
{}

/// Every input has an output of `show`.
pub fn some_show_output()
    ensures { (input : Input)
        → (text : List ℕ) × (answer : Result (Unit {0}) Fault) × IsShowOutput input text answer }
{}

/// An input has at most one output of `show`: one text, and one answer.
pub fn one_show_output()
    ensures { (input : Input) (text other : List ℕ) (answer another : Result (Unit {0}) Fault)
        → IsShowOutput input text answer → IsShowOutput input other another
        → (text ≡ other) × (answer ≡ another) }
{}

/// Every input has an output of `repair`.
pub fn some_repair_output()
    ensures { (input : Input)
        → (text : List ℕ) × (answer : Result Bool Fault) × IsRepairOutput input text answer }
{
    some_answer();
    every_share_has_a_printed_form();
}

/// An input has at most one output of `repair`: one text, and one answer.
pub fn one_repair_output()
    ensures { (input : Input) (text other : List ℕ) (answer another : Result Bool Fault)
        → IsRepairOutput input text answer → IsRepairOutput input other another
        → (text ≡ other) × (answer ≡ another) }
{
    one_answer();
    one_printed_form();
}

/// If no line is refused, `repair` answers `false` exactly if two mnemonics fit some line of the input.
pub fn two_mnemonics_are_told()
    ensures told { (input : Input) (text line : List ℕ) (one_each : Bool)
        → IsRepairOutput input text (Ok one_each) → Contains (lines_of input) line → TwoFit line
        → one_each ≡ false }
    ensures only { (input : Input) (text : List ℕ) → IsRepairOutput input text (Ok false)
        → (line : List ℕ) × Contains (lines_of input) line × TwoFit line }
{}

/// The written form of names that shares can have takes at most 1,215 bytes. The written form of all names takes
/// exactly that many.
pub fn names_are_short()
    ensures most { (names : Names) → AreNames names → length (quorum_text names) ≤ longest_names }
    ensures reached { (names : Names) × AreNames names
        × (length (quorum_text names) ≡ longest_names) }
{}
