//! Laws of accounts. Each is the contract of a function that does nothing.
ghost use Rattle.std.specs.Prelude.{◌≡◌, ℕ, List, Ok};
ghost use Rattle.std.specs.Option.{option_and_then, option_map};
ghost use Rattle.bip32.specs.declared.extended_key.ExtendedKey.{ExtendedKey};
ghost use Rattle.bip32.specs.Derivation.{child};
ghost use Rattle.bip32.specs.Paths.{at};
ghost use Rattle.addresses.specs.declared.address.Kind.{Kind};
ghost use Rattle.accounts.specs.declared.derivation.Chain.{Chain};
ghost use Rattle.accounts.specs.declared.shown.Shown.{Shown};
ghost use Rattle.accounts.specs.Paths.{account_path, address_path};
ghost use Rattle.accounts.specs.Accounts.{account, chain_key};
ghost use Rattle.accounts.specs.Shown.{shown_in};
ghost use Rattle.accounts.specs.Texts.{IsShownText};

/// The keys of accounts and addresses are those at their paths below the master key.
pub fn keys_are_at_their_paths()
    ensures accounts { (master : ExtendedKey) (kind : Kind) (number : ℕ)
        → option_map (λ node. node.key) (account master kind number) ≡ at master (account_path kind number) }
    ensures addresses { (master : ExtendedKey) (kind : Kind) (number : ℕ) (chain : Chain) (index : ℕ)
        → at master (address_path kind number chain index)
        ≡ option_and_then (λ below. child below index)
        (option_and_then (λ key. chain_key key chain) (at master (account_path kind number))) }
{}

/// Just the texts that are written so are read, each as what it shows. So no two things have one text.
pub fn shown_texts_are_read()
    ensures written { (text : List ℕ) (thing : Shown) → IsShownText text thing → shown_in text ≡ Ok thing }
    ensures read { (text : List ℕ) (thing : Shown) → shown_in text ≡ Ok thing → IsShownText text thing }
{}
