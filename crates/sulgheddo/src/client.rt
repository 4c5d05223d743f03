ghost use Rattle.std.specs.Prelude.{◌≡◌, IfOk};
ghost use Rattle.sulgheddo.specs.Clients.{kind_of, kept_of, kept_at_first};
ghost use Rattle.sulgheddo.specs.declared.command.Kind.TheVariants.{Byte};

use crate::command::Kind;
use crate::line_error::LineError;
use crate::session::{Kept, Session};
use crate::tables::Sizes;
use crate::tally::Tally;
use crate::words::Words;
use std::alloc::{AllocError, Global};
use units::Cashflow;

// A session with units of the kind that the list named last. `kept` and `carry_out` each match on it: one place for both
// would be a dyn value that is handed out, which may not be, or a macro that is longer than a match.
#[derive(Drop)]
pub enum Client {
    Bytes(Session<u8>),
    Cashflows(Session<Cashflow>),
}

impl Client {
    // What a list begins with.
    pub(crate) fn new(heap: Global) -> Result<Client, AllocError>
        ensures { IfOk result (λ c. (kind_of c ≡ Byte) × (kept_of c ≡ kept_at_first)) }
    {
        let sizes = Sizes {
            instructions: 65535,
            units: 65535,
        };
        let tally = Tally::default();
        Client::of_kind(heap, Kind::Byte, Kept { tally, sizes })
    }

    // A new session with units of this kind.
    fn of_kind(heap: Global, kind: Kind, kept: Kept) -> Result<Client, AllocError>
        ensures { IfOk result (λ c. (kind_of c ≡ kind) × (kept_of c ≡ kept)) }
    {
        Ok(match kind {
            Kind::Byte => Client::Bytes(Session::new(heap, kept)?),
            Kind::Cashflow => Client::Cashflows(Session::new(heap, kept)?),
        })
    }

    fn kept(&self) -> Kept
        ensures { result ≡ kept_of self.now }
    {
        match self {
            Client::Bytes(session) => session.kept(),
            Client::Cashflows(session) => session.kept(),
        }
    }

    pub(crate) fn tally(&self) -> Tally
        ensures { result ≡ (kept_of self.now).tally }
    {
        self.kept().tally
    }

    // Carries out a line of the list.
    pub(crate) fn carry_out(
        &mut self,
        rt: &impl Print,
        words: &mut Words<'_>,
    ) -> Result<(), LineError> {
        let named = match self {
            Client::Bytes(session) => session.carry_out(rt, words)?,
            Client::Cashflows(session) => session.carry_out(rt, words)?,
        };
        if let Some(kind) = named {
            *self = Client::of_kind(words.heap, kind, self.kept())?;
        }
        Ok(())
    }
}
