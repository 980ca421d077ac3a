// The loops of `tally` as a program in another language calls them, with their promises.
// The width is known to the compiler in the functions whose names end in 6.
#![tactic(auto)]

ghost use Rattle.std.specs.Prelude.{◌≡◌};
ghost use Rattle.bits.specs.Bits.{read, vbr};
ghost use Rattle.tally.specs.Total.{total};

#[unsafe(no_mangle)]
pub extern "C" fn tally_fields(s: &[u8], n: u64) -> u64
    ensures { result ≡ total (read n) s.now }
{
    tally::tally_fields(s, n)
}

#[unsafe(no_mangle)]
pub extern "C" fn tally_fields6(s: &[u8]) -> u64
    ensures { result ≡ total (read 6) s.now }
{
    tally::tally_fields6(s)
}

#[unsafe(no_mangle)]
pub extern "C" fn tally_vbr(s: &[u8], w: u64) -> u64
    ensures { result ≡ total (vbr w) s.now }
{
    tally::tally_vbr(s, w)
}

#[unsafe(no_mangle)]
pub extern "C" fn tally_vbr6(s: &[u8]) -> u64
    ensures { result ≡ total (vbr 6) s.now }
{
    tally::tally_vbr6(s)
}
