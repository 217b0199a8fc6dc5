//! What the program does for any words that give a job whose values stand in them, in whatever order: theorems, each the contract of
//! a function that only calls the program.
ghost use Rattle.std.specs.Prelude.{◌≡◌, ◌≢◌, ℕ, Bool, List, [], map, true, Some, None, IfErr, IfOk};
ghost use Rattle.std.specs.Borrow.{Bor};
ghost use Rattle.std.specs.Io.KnownBytes.{Appends};
ghost use Rattle.clap.specs.Words.{Text, takes};
ghost use Rattle.s39_kdf.specs.declared.secret_form.SecretForm.{SecretForm};
ghost use Rattle.s39_command.specs.declared.command.Job.{Job};
ghost use Rattle.s39_command.specs.declared.command.Job.TheVariants.{Create, Recover};
ghost use Rattle.s39_command.specs.declared.command.Texts.{Texts};
ghost use Rattle.s39_command.specs.Command.{shamir_app};
ghost use Rattle.s39_command.specs.Jobs.{GivesJob};
ghost use Rattle.s39_cli.specs.Ending.{DeliversDrawn, Ends, IsTyped, OnEnd, status_in};
ghost use Rattle.s39_cli.specs.Headline.{GivesSecret};
ghost use Rattle.s39_cli.specs.Outcome.{IsReady};
ghost use Rattle.s39_cli.specs.Values.{text_of};

use crate::laws::created_jobs_recover;
use crate::person::Person;
use crate::runner::{Ended, program};
use crate::values::Shelf;
use std::alloc::Global;
use std::collections::VecDeque;
use std::io::{Read, Write};

/// Runs the program with any words that it takes and that give a job, and delivers what this job writes, with its exit status. The
/// job's secret and passphrase stand in the words, and each of its texts gives a value. If it is a creation, its random bytes
/// aren't typed. If it splits anew, it writes by the first bytes of the named file, or it ends with 3 as this file isn't read.
pub fn run<S: Shelf, R: Read + Drop, W: Write + Drop, E: Write>(
    shelf: &S,
    alloc: Global,
    words: &[&str],
    input: R,
    output: W,
    person: &mut Person<E>,
) -> Ended<R, W>
    ensures { (job : Job) (given : Texts)
        → takes shamir_app (map (λ word. word.now) words.now) ≡ true
        → GivesJob (map (λ word. word.now) words.now) job given
        → IsReady job (text_of None given.secret) → (IsTyped person.old.terminals.input job → ⊥)
        → OnEnd result (DeliversDrawn (S.told shelf.now) R.remaining W.contents job
        (text_of None given.secret) (text_of None given.passphrase) input output) }
{
    program(shelf, alloc, words, input, output, person)
}

/// Runs the program with any words of a creation, and then with any words of a recovery that expects no fingerprint and has the same
/// passphrase. The input of the second run is what the first wrote. If no device of the second fails, the secret goes out, and its
/// exit status is 0. The result says how the second run ended, or how the first ended if its status wasn't 0.
pub fn create_and_recover<S: Shelf, R: Read + Drop, W: Write + Drop, E: Write>(
    shelf: &S,
    alloc: Global,
    creating: &[&str],
    recovering: &[&str],
    random: R,
    output: W,
    person: &mut Person<E>,
) -> Result<Ended<VecDeque<u8>, W>, Ended<R, VecDeque<u8>>>
    ensures recovered { IfOk result (λ recovery. (plan : Bor Text) (exponent : ℕ) (extendable : Bool)
        (form : SecretForm) (given again : Texts)
        → takes shamir_app (map (λ word. word.now) creating.now) ≡ true
        → GivesJob (map (λ word. word.now) creating.now) (Create plan exponent extendable) given
        → takes shamir_app (map (λ word. word.now) recovering.now) ≡ true
        → GivesJob (map (λ word. word.now) recovering.now) (Recover form None) again
        → text_of None again.passphrase ≡ text_of None given.passphrase
        → OnEnd recovery (λ status read_to written_to. status ≢ 3
        → (line : List ℕ) × GivesSecret form (text_of None given.secret) line status
        × Appends (W.contents output) (W.contents written_to) line)) }
    ensures not_done { IfErr result (λ creation. status_in creation ≢ 0) }
    ensures first { IfErr result (λ creation. (empty : _) × (empty.items ≡ [])
        × Ends (S.told shelf.now) R.remaining (λ queue. Some queue.items) person.old.terminals.input
        (map (λ word. word.now) creating.now) random empty creation) }
{
    created_jobs_recover();
    let backup = VecDeque::new(alloc);
    match program(shelf, alloc, creating, random, backup, person) {
        Ended::With {
            status,
            input,
            output: backup,
        } => {
            if status != 0 {
                return Err(Ended::With {
                    status,
                    input,
                    output: backup,
                });
            }
            Ok(program(shelf, alloc, recovering, backup, output, person))
        }
        Ended::NoMemory => Err(Ended::NoMemory),
    }
}
