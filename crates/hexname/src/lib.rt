// A file's name: does it say that the file holds Intel HEX? Nothing but the name is looked at.
#![tactic(auto)]

ghost use Rattle.std.specs.Prelude.{◌≡◌};
ghost use Rattle.hexname.specs.Name.{smalls, ends_in, is_hex_name};

// Does a name end so, its letters in either case? The ending is in small letters.
#[tactic(auto, using(crate::proofs::Endings::too_short, crate::proofs::Endings::ends_so, crate::proofs::Endings::ends_not))]
fn ends(name: &[u8], ending: &[u8]) -> bool
    requires { smalls ending.now ≡ ending.now }
    ensures { result ≡ ends_in ending.now name.now }
{
    ending.len() <= name.len() && name[name.len() - ending.len()..].eq_ignore_ascii_case(ending)
}

// Is it a name for Intel HEX?
#[tactic(auto, unfolding(crate::specs::Name::smalls, crate::specs::Name::is_hex_name))]
pub fn is_hex(name: &[u8]) -> bool
    ensures { result ≡ is_hex_name name.now }
{
    ends(name, b".hex") || ends(name, b".ihex") || ends(name, b".ihx")
}
