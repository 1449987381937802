//! One operation.
ghost use Rattle.std.specs.Prelude.{◌≡◌};
ghost use Rattle.crypto_model.specs.declared.plain.Status.TheVariants.{NotProcessed};

use crate::OpSpec;
use crypto_model::Status;
use mbuf_chain::Mbuf;
use std::snapshot::Snapshot;

/// A packet and what is to be done with it, with a cargo of the caller's. It can't be cloned.
///
/// It keeps the input that it was made with as snapshots, which contracts see and which take no memory.
#[derive(Drop)]
pub struct Op<C> {
    spec: OpSpec,
    status: Status,
    chain: Mbuf,
    cargo: C,
    made_spec: Snapshot<OpSpec>,
    made_chain: Snapshot<Mbuf>,
}

impl<C> Op<C> {
    ghost use Rattle.std.specs.Borrow.{sem};
    ghost use Rattle.crypto_op.specs.Lending.{LendsChain};
    ghost use Rattle.crypto_op.specs.Op.{data_len_of, made, present, moved_to, IsFresh};

    pub fn new(spec: OpSpec, chain: Mbuf, cargo: C) -> Op<C>
        ensures spec { result.spec ≡ spec }
        ensures chain { result.chain ≡ chain }
        ensures cargo { result.cargo ≡ cargo }
        ensures fresh { IsFresh result }
    {
        Op {
            made_spec: Snapshot::of(&spec),
            made_chain: Snapshot::of(&chain),
            spec,
            status: Status::NotProcessed,
            chain,
            cargo,
        }
    }

    pub fn into_parts(self) -> (OpSpec, Status, Mbuf, C)
        ensures spec { result.0 ≡ self.spec }
        ensures status { result.1 ≡ self.status }
        ensures chain { result.2 ≡ self.chain }
        ensures cargo { result.3 ≡ self.cargo }
    {
        let Op {
            spec,
            status,
            chain,
            cargo,
            made_spec: _,
            made_chain: _,
        } = self;
        (spec, status, chain, cargo)
    }

    pub fn spec(&self) -> &OpSpec
        ensures { result.now ≡ self.now.spec }
    {
        &self.spec
    }

    pub fn status(&self) -> Status
        ensures { result ≡ self.now.status }
    {
        self.status
    }

    pub fn chain(&self) -> &Mbuf
        ensures { result.now ≡ self.now.chain }
    {
        &self.chain
    }

    pub fn cargo(&self) -> &C
        ensures { result.now ≡ self.now.cargo }
    {
        &self.cargo
    }

    /// The length of the cipher range or, where that is empty, of the authentication range.
    pub fn data_len(&self) -> u32
        ensures { result ≡ data_len_of self.now.spec }
    {
        if self.spec.cipher.len == 0 {
            self.spec.auth.len
        } else {
            self.spec.cipher.len
        }
    }

    /// Makes the present input the made one.
    pub fn renew(&mut self)
        ensures fresh { IsFresh self.new }
        ensures spec { self.new.spec ≡ self.old.spec }
        ensures chain { self.new.chain ≡ self.old.chain }
        ensures cargo { self.new.cargo ≡ self.old.cargo }
    {
        self.status = Status::NotProcessed;
        self.made_spec = Snapshot::of(&self.spec);
        self.made_chain = Snapshot::of(&self.chain);
    }

    pub fn set_pos(&mut self, pos: u64)
        ensures { self.new ≡ moved_to pos self.old }
    {
        self.spec.pos = pos;
    }

    pub fn set_status(&mut self, s: Status)
        ensures { self.new ≡ record self.old { status = s } }
    {
        self.status = s;
    }

    pub fn set_digest(&mut self, d: [u8; 64])
        ensures { self.new ≡ record self.old { spec = record self.old.spec { digest = d } } }
    {
        self.spec.digest = d;
    }

    /// Lends the packet. What is written to it changes the present input, and not the made one.
    pub fn chain_mut(&mut self) -> &mut Mbuf
        ensures* writes_back { sem 𝓛 (LendsChain C.row self.entry result) }
        ensures chain { result.now ≡ self.old.chain }
    {
        &mut self.chain
    }

    /// The same operation with another cargo, and the cargo that it had.
    pub fn with_cargo<B>(self, cargo: B) -> (Op<B>, C)
        ensures spec { result.0.spec ≡ self.spec }
        ensures status { result.0.status ≡ self.status }
        ensures chain { result.0.chain ≡ self.chain }
        ensures made { made result.0 ≡ made self }
        ensures cargo { result.0.cargo ≡ cargo }
        ensures before { result.1 ≡ self.cargo }
    {
        let Op {
            spec,
            status,
            chain,
            cargo: before,
            made_spec,
            made_chain,
        } = self;
        let op = Op {
            spec,
            status,
            chain,
            cargo,
            made_spec,
            made_chain,
        };
        (op, before)
    }
}
