//! The permutation of the state: 24 rounds of five steps.
ghost use Rattle.std.specs.Prelude.{◌≡◌, ◌+◌, ◌*◌, ◌/◌, ◌%◌, ◌<◌};
ghost use Rattle.keccak.specs.Keccak.{parity, theta_at, theta, source, rho_pi_at, rho_pi, chi_at, chi, iota, round, rounds};

/// The state: 25 words.
pub(crate) type State = [u64; 25];

const ROTATIONS: [u32; 25] = [
    0, 1, 62, 28, 27, 36, 44, 6, 55, 20, 3, 10, 43, 25, 39, 41, 45, 15, 21, 8, 18, 2, 61, 56, 14,
];

const ROUND_CONSTANTS: [u64; 24] = [
    0x0000_0000_0000_0001,
    0x0000_0000_0000_8082,
    0x8000_0000_0000_808a,
    0x8000_0000_8000_8000,
    0x0000_0000_0000_808b,
    0x0000_0000_8000_0001,
    0x8000_0000_8000_8081,
    0x8000_0000_0000_8009,
    0x0000_0000_0000_008a,
    0x0000_0000_0000_0088,
    0x0000_0000_8000_8009,
    0x0000_0000_8000_000a,
    0x0000_0000_8000_808b,
    0x8000_0000_0000_008b,
    0x8000_0000_0000_8089,
    0x8000_0000_0000_8003,
    0x8000_0000_0000_8002,
    0x8000_0000_0000_0080,
    0x0000_0000_0000_800a,
    0x8000_0000_8000_000a,
    0x8000_0000_8000_8081,
    0x8000_0000_0000_8080,
    0x0000_0000_8000_0001,
    0x8000_0000_8000_8008,
];

/// The state after 24 rounds.
pub(crate) fn rounds(a: State) -> State
    ensures { result ≡ rounds a 24 }
{
    let mut state = a;
    for n in 0..24usize {
        let next = iota(chi(&rho_pi(&theta(&state))), ROUND_CONSTANTS[n]);
        state = next;
    }
    state
}

fn iota(a: State, constant: u64) -> State
    ensures { result ≡ iota a constant }
{
    let mut state = a;
    state[0] ^= constant;
    state
}

#[tactic(auto, unfolding(crate::specs::Keccak::theta))]
fn theta(a: &State) -> State
    ensures { result ≡ theta a.now }
{
    [
        theta_at(a, 0),
        theta_at(a, 1),
        theta_at(a, 2),
        theta_at(a, 3),
        theta_at(a, 4),
        theta_at(a, 5),
        theta_at(a, 6),
        theta_at(a, 7),
        theta_at(a, 8),
        theta_at(a, 9),
        theta_at(a, 10),
        theta_at(a, 11),
        theta_at(a, 12),
        theta_at(a, 13),
        theta_at(a, 14),
        theta_at(a, 15),
        theta_at(a, 16),
        theta_at(a, 17),
        theta_at(a, 18),
        theta_at(a, 19),
        theta_at(a, 20),
        theta_at(a, 21),
        theta_at(a, 22),
        theta_at(a, 23),
        theta_at(a, 24),
    ]
}

#[inline(always)]
fn theta_at(a: &State, i: usize) -> u64
    requires { i < 25 }
    ensures { result ≡ theta_at a.now i }
{
    a[i] ^ (parity(a, (i + 4) % 5) ^ parity(a, (i + 1) % 5).rotate_left(1))
}

#[inline(always)]
fn parity(a: &State, x: usize) -> u64
    requires { x < 5 }
    ensures { result ≡ parity a.now x }
{
    a[x] ^ a[x + 5] ^ a[x + 10] ^ a[x + 15] ^ a[x + 20]
}

#[tactic(auto, unfolding(crate::specs::Keccak::rho_pi))]
fn rho_pi(a: &State) -> State
    ensures { result ≡ rho_pi a.now }
{
    [
        rho_pi_at(a, 0),
        rho_pi_at(a, 1),
        rho_pi_at(a, 2),
        rho_pi_at(a, 3),
        rho_pi_at(a, 4),
        rho_pi_at(a, 5),
        rho_pi_at(a, 6),
        rho_pi_at(a, 7),
        rho_pi_at(a, 8),
        rho_pi_at(a, 9),
        rho_pi_at(a, 10),
        rho_pi_at(a, 11),
        rho_pi_at(a, 12),
        rho_pi_at(a, 13),
        rho_pi_at(a, 14),
        rho_pi_at(a, 15),
        rho_pi_at(a, 16),
        rho_pi_at(a, 17),
        rho_pi_at(a, 18),
        rho_pi_at(a, 19),
        rho_pi_at(a, 20),
        rho_pi_at(a, 21),
        rho_pi_at(a, 22),
        rho_pi_at(a, 23),
        rho_pi_at(a, 24),
    ]
}

#[inline(always)]
fn rho_pi_at(a: &State, i: usize) -> u64
    requires { i < 25 }
    ensures { result ≡ rho_pi_at a.now i }
{
    let source = (i % 5 + 3 * (i / 5)) % 5 + 5 * (i % 5);
    a[source].rotate_left(ROTATIONS[source])
}

#[tactic(auto, unfolding(crate::specs::Keccak::chi))]
fn chi(b: &State) -> State
    ensures { result ≡ chi b.now }
{
    [
        chi_at(b, 0),
        chi_at(b, 1),
        chi_at(b, 2),
        chi_at(b, 3),
        chi_at(b, 4),
        chi_at(b, 5),
        chi_at(b, 6),
        chi_at(b, 7),
        chi_at(b, 8),
        chi_at(b, 9),
        chi_at(b, 10),
        chi_at(b, 11),
        chi_at(b, 12),
        chi_at(b, 13),
        chi_at(b, 14),
        chi_at(b, 15),
        chi_at(b, 16),
        chi_at(b, 17),
        chi_at(b, 18),
        chi_at(b, 19),
        chi_at(b, 20),
        chi_at(b, 21),
        chi_at(b, 22),
        chi_at(b, 23),
        chi_at(b, 24),
    ]
}

#[inline(always)]
fn chi_at(b: &State, i: usize) -> u64
    requires { i < 25 }
    ensures { result ≡ chi_at b.now i }
{
    b[i] ^ (!b[i / 5 * 5 + (i + 1) % 5] & b[i / 5 * 5 + (i + 2) % 5])
}
