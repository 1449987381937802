//! What kind of device a field of the scheduler's text wishes for.
ghost use Rattle.std.specs.Prelude.{◌≡◌, [], length, IfOk, All, Option, None};
ghost use Rattle.sym_engine.specs.Driver.{held_of};

use super::crypt::SEALS;
use super::devices::packets;
use super::{NOTHING, run_in_memory};
use crypto_op::{Card, OpBurst};
use dev_core::{Device, Driver, Kind, SetUpRefused, Stats};
use std::alloc::Global;
use std::sync::Arc;
use std::test::Fail;
use sym_engine::PlainDriver;
use sym_session::SessionTable;

// A device that notes what kind was wished for when it was set up.
#[derive(Drop)]
struct Noting<D> {
    inner: D,
    kind: Option<Kind>,
}

impl<D: Device<Card>> Driver<Card> for Noting<D> {
    ghost held = { λ d. D.held d.inner };

    ghost room = { λ d. D.room d.inner };

    ghost admits = { λ d lens. D.admits d.inner lens };

    ghost stalls = { λ d. D.stalls d.inner };

    ghost sessions = { λ d. D.sessions d.inner };

    ghost stats = { λ d. D.stats d.inner };

    ghost log = { λ d. D.log d.inner };

    ghost ordered = { λ d. D.ordered d.inner };

    ghost follows = { λ d e. D.follows d.inner e.inner };

    ghost room_admits = { λ d r ls e. D.room_admits d.inner r ls e };

    ghost keeps_order = { λ d e p o. D.keeps_order d.inner e.inner p o };

    ghost follows_itself = { λ d. D.follows_itself d.inner };

    ghost follows_on = { λ d e f p q. D.follows_on d.inner e.inner f.inner p q };

    fn enqueue_burst(&mut self, burst: &mut OpBurst<Card>, max: usize) -> usize {
        self.inner.enqueue_burst(burst, max)
    }

    fn dequeue_burst(&mut self, out: &mut OpBurst<Card>, max: usize) -> usize {
        self.inner.dequeue_burst(out, max)
    }

    fn held(&self) -> usize {
        self.inner.held()
    }

    fn stalls(&self) -> u64 {
        self.inner.stalls()
    }

    fn stats(&self) -> Stats {
        self.inner.stats()
    }

    fn sessions(&self) -> &SessionTable {
        self.inner.sessions()
    }
}

impl<D: Device<Card>> Device<Card> for Noting<D> {
    ghost limit = { λ d. D.limit d.inner };

    ghost room_told = { λ d. D.room_told d.inner };

    ghost keeps_depth = { λ d e p. D.keeps_depth d.inner e.inner p };

    ghost within_depth = { λ d. D.within_depth d.inner };

    fn set_up(
        &mut self,
        alloc: Global,
        kind: Kind,
        sessions: Arc<SessionTable>,
        depth: usize,
    ) -> Result<(), SetUpRefused> {
        match self.inner.set_up(alloc, kind, sessions, depth) {
            Ok(()) => {
                self.kind = Some(kind);
                Ok(())
            }
            Err(refused) => Err(refused),
        }
    }

    fn depth(&self) -> usize {
        self.inner.depth()
    }
}

fn unnoted(alloc: Global) -> Result<Noting<PlainDriver<Card>>, Fail>
    ensures { IfOk result (λ d. held_of d.inner ≡ []) }
{
    let inner = PlainDriver::new(alloc)?;
    Ok(Noting { inner, kind: None })
}

fn four_devices(alloc: Global) -> Result<Vec<Noting<PlainDriver<Card>>>, Fail>
    ensures four { IfOk result (λ v. length v.items ≡ 4) }
    ensures idle { IfOk result (λ v. All (λ d. held_of d.inner ≡ []) v.items) }
{
    let mut devs = Vec::new(alloc);
    for _n in 0..4usize {
        devs.push(unnoted(alloc)?)?;
    }
    Ok(devs)
}

#[test]
fn each_device_is_set_up_with_its_kind(rt: HostRuntime) -> Result<(), Fail> {
    let alloc = rt.alloc();
    let words = [
        "crypt",
        "--vdev",
        "worker=lane,mode=round-robin,worker=plain,worker=lane",
        "--sessions",
        "f",
    ];
    let devs = four_devices(alloc)?;
    let run = run_in_memory(
        alloc,
        &words,
        SEALS,
        packets(alloc, 3)?,
        1000,
        NOTHING,
        devs,
    )?;
    let expected = [Some(Kind::Lane), Some(Kind::Plain), Some(Kind::Lane), None];
    for (device, kind) in run.devs.iter().zip(expected) {
        assert_eq!(rt; device.kind, kind);
    }
    Ok(())
}
