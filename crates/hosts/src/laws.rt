// The promise over lists of calls, as the contract of a function over any host.
ghost use Rattle.semantics.specs.Promise.{Promised};

use crate::host::Host;

// Whatever is called on a card that began blank, over this host as it stands: runs are sound, and filling keeps its laws.
pub fn runs_are_sound<H: Host>(host: &H)
    ensures { Promised H.reply (H.condition host.now) }
{
    let _ = host;
}
