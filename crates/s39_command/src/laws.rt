//! Facts about the definitions of the command line. Each is the contract of a function that does nothing.
ghost use Rattle.std.specs.Prelude.{◌≡◌, [], ◌∷◌, codes, None, true};
ghost use Rattle.std.specs.Borrow.{Bor};
ghost use Rattle.clap.specs.Words.{Text};
ghost use Rattle.s39_clap.specs.Arguments.{option, flag, positional};
ghost use Rattle.s39_kdf.specs.declared.secret_form.SecretForm.TheVariants.{Fingerprint};
ghost use Rattle.s39_command.specs.declared.command.Job.TheVariants.{Create, Recover};
ghost use Rattle.s39_command.specs.Faults.{FirstFault, OneFault, SomeFault};
ghost use Rattle.s39_command.specs.Jobs.{AsksFor, WordsGive, WordsGiveFaults};
ghost use Rattle.s39_command.specs.Words.{AreWords, IsExponent, IsLimit, OneCall, WordsAreTaken, number_in};

/// The definition of the command line takes the words of each command, whatever the order of its arguments and whatever their texts
/// are, if a limit and an exponent are numbers in their ranges, and a positional doesn't begin with a dash. The words give the call that
/// is asked for, or the fault of the values that are given. A limit that isn't given is 1000, and an exponent 0.
pub fn words_in_any_order()
    ensures taken { WordsAreTaken }
    ensures call { WordsGive }
    ensures faults { WordsGiveFaults }
{}

/// There are words of each command that takes arguments: with none, with each option in one word or in two, with files of values, and in
/// several orders.
pub fn there_are_such_words()
    ensures none { AreWords (codes "drill") [] (codes "shamir" ∷ codes "drill" ∷ []) }
    ensures drill { AreWords (codes "drill") (option (codes "passphrase") (codes "TREZOR") ∷ option (codes "after") (codes "0.0")
        ∷ option (codes "limit") (codes "5") ∷ [])
        (codes "shamir" ∷ codes "drill" ∷ codes "--passphrase" ∷ codes "TREZOR" ∷ codes "--after" ∷ codes "0.0"
        ∷ codes "--limit" ∷ codes "5" ∷ []) }
    ensures fingerprints { AreWords (codes "drill") (flag (codes "fingerprint") ∷ option (codes "passphrase") (codes "TREZOR")
        ∷ option (codes "after") (codes "0.0") ∷ option (codes "limit") (codes "5") ∷ [])
        (codes "shamir" ∷ codes "drill" ∷ codes "--fingerprint" ∷ codes "--passphrase=TREZOR" ∷ codes "--after=0.0"
        ∷ codes "--limit=5" ∷ []) }
    ensures expecting_drill { AreWords (codes "drill") (option (codes "limit") (codes "5") ∷ option (codes "expect") (codes "DF41d8fe")
        ∷ option (codes "passphrase-file") (codes "-") ∷ [])
        (codes "shamir" ∷ codes "drill" ∷ codes "--limit=5" ∷ codes "--expect" ∷ codes "DF41d8fe" ∷ codes "--passphrase-file=-" ∷ []) }
    ensures recover { AreWords (codes "recover") (option (codes "passphrase") (codes "TREZOR") ∷ flag (codes "fingerprint") ∷ [])
        (codes "shamir" ∷ codes "recover" ∷ codes "--passphrase" ∷ codes "TREZOR" ∷ codes "--fingerprint" ∷ []) }
    ensures expecting_recover { AreWords (codes "recover") (option (codes "expect") (codes "DF41d8fe")
        ∷ option (codes "passphrase") (codes "TREZOR") ∷ [])
        (codes "shamir" ∷ codes "recover" ∷ codes "--expect=DF41d8fe" ∷ codes "--passphrase" ∷ codes "TREZOR" ∷ []) }
    ensures create { AreWords (codes "create") (option (codes "master-secret") (codes "00112233445566778899aabbccddeeff")
        ∷ option (codes "exponent") (codes "1") ∷ positional (codes "plan") (codes "2of3") ∷ [])
        (codes "shamir" ∷ codes "create" ∷ codes "--master-secret=00112233445566778899aabbccddeeff" ∷ codes "--exponent" ∷ codes "1"
        ∷ codes "2of3" ∷ []) }
    ensures plan_first { AreWords (codes "create") (positional (codes "plan") (codes "2of3") ∷ flag (codes "extendable")
        ∷ option (codes "master-secret") (codes "00112233445566778899aabbccddeeff") ∷ [])
        (codes "shamir" ∷ codes "create" ∷ codes "2of3" ∷ codes "--extendable"
        ∷ codes "--master-secret" ∷ codes "00112233445566778899aabbccddeeff" ∷ []) }
    ensures reissue { AreWords (codes "reissue") (positional (codes "plan") (codes "2of3") ∷ positional (codes "names") (codes "0.2") ∷ [])
        (codes "shamir" ∷ codes "reissue" ∷ codes "2of3" ∷ codes "0.2" ∷ []) }
    ensures resplit { AreWords (codes "resplit") (option (codes "random-file") (codes "random.bin")
        ∷ positional (codes "plan") (codes "2of3") ∷ [])
        (codes "shamir" ∷ codes "resplit" ∷ codes "--random-file" ∷ codes "random.bin" ∷ codes "2of3" ∷ []) }
{}

/// The creation with its plan first asks for the extendable flag and the exponent 0, and the recovery with its flag last for a
/// fingerprint.
pub fn they_ask_for_jobs()
    ensures creation { (plan : Bor Text) × (plan.now ≡ codes "2of3") × AsksFor (codes "create")
        (positional (codes "plan") (codes "2of3") ∷ flag (codes "extendable")
        ∷ option (codes "master-secret") (codes "00112233445566778899aabbccddeeff") ∷ []) (Create plan 0 true) }
    ensures recovery { AsksFor (codes "recover") (option (codes "passphrase") (codes "TREZOR") ∷ flag (codes "fingerprint") ∷ [])
        (Recover Fingerprint None) }
{}

/// The least limit, the greatest, and some between them are limits, and the least exponent and the greatest are exponents. The text of
/// the greatest limit has its number as its value.
pub fn there_are_such_numbers()
    ensures least { IsLimit (codes "1") }
    ensures default { IsLimit (codes "1000") }
    ensures above_a_thousand { IsLimit (codes "1001") }
    ensures greatest { IsLimit (codes "4294967295") }
    ensures value { number_in (codes "4294967295") ≡ 4294967295 }
    ensures least_exponent { IsExponent (codes "0") }
    ensures greatest_exponent { IsExponent (codes "15") }
{}

/// Words give one call: any two calls that they give have the same values and the same files of values.
pub fn one_call()
    ensures { OneCall }
{}

/// Of the faults of values the first is told: that of the secret, then that of the passphrase, then that of the form, then that of
/// random bytes. Values with a fault have one that is told. Words with such values give no call, so none of their other texts is looked at.
pub fn first_fault()
    ensures first { FirstFault }
    ensures some { SomeFault }
    ensures one { OneFault }
{}
