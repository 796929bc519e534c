//! The program as a library for C and Rust: a script is followed into a buffer.
#![tactic(auto)]

ghost use Rattle.std.specs.Prelude.{◌≡◌, ◌≢◌, ◌<◌, ◌≤◌, length, take, drop};
ghost use Rattle.session.specs.Sessions.{printed};

use session::follow_script;
use std::alloc::Global;

/// Copies `found` to the front of `out`, and gives its length; or `usize::MAX`, and nothing, where `out` has no room for it.
fn copied(found: &[u8], out: &mut [u8]) -> usize
    ensures copied { result ≤ length out.old → take result out.new ≡ found.now }
    ensures rest { drop result out.new ≡ drop result out.old }
    ensures as_long { length found.now ≤ length out.old → result ≡ length found.now }
    ensures no_room { length out.old < length found.now → result ≡ usize.MAX }
    ensures unchanged { length out.old < length found.now → out.new ≡ out.old }
{
    if found.len() > out.len() {
        return usize::MAX;
    }
    out[..found.len()].copy_from_slice(found);
    found.len()
}

/// Follows the script `text`, and writes what it finds to the front of `out`. Gives the length of that, or `usize::MAX`
/// where `out` has no room for it or there is no memory.
#[unsafe(no_mangle)]
pub extern "C" fn tuvshorad_follow(alloc: Global, text: &[u8], out: &mut [u8]) -> usize
    ensures found { result ≤ length out.old → take result out.new ≡ printed text.now }
    ensures rest { drop result out.new ≡ drop result out.old }
    ensures as_long { length (printed text.now) ≤ length out.old → result ≢ usize.MAX → result ≡ length (printed text.now) }
    ensures no_room { length out.old < length (printed text.now) → result ≡ usize.MAX }
    ensures unchanged { length out.old < result → out.new ≡ out.old }
{
    let mut found = Vec::new(alloc);
    match follow_script(alloc, text, &mut found) {
        Ok(()) => copied(&found, out),
        Err(_) => usize::MAX,
    }
}
