//! Code over any kind of routes, and tests of written and of searched routes.
#![tactic(auto)]

ghost use Rattle.std.specs.Prelude.{◌≡◌};
ghost use Rattle.std.specs.Option.{option_map};

use routes::Routes;

#[cfg(test)]
mod searched;
#[cfg(test)]
mod written;

/// Walks the route from `from` to `to` hop by hop, and says where it ends: at `to`, if there is a route.
pub fn walked<R: Routes>(routes: &R, from: usize, to: usize) -> Option<usize>
    ensures { result ≡ option_map (λ _. to) (R.Routes.route routes.now from to) }
{
    let count = routes.route_length(from, to)?;
    let mut here = from;
    // A loop, since `try_fold` would carry a station that its closure does not read.
    for i in 0..count {
        here = routes.hop(from, to, i)?.station;
    }
    Some(here)
}
