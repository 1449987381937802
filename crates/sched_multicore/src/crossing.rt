//! What may cross threads. A contract can't say so: that these are proved shows it.
ghost use Rattle.std.specs.Prelude.{◌≡◌};

use crate::{McQp, Worker};
use dev_core::Device;
use flight_table::Note;

fn moved<X: Send>(x: X) -> X
    ensures { result ≡ x }
{
    x
}

pub fn queue_pair<C: Send>(qp: McQp<C>) -> McQp<C>
    ensures { result ≡ qp }
{
    moved(qp)
}

pub fn worker<D: Device<Note> + Send>(worker: Worker<D>) -> Worker<D>
    ensures { result ≡ worker }
{
    moved(worker)
}
