//! A session: a client, and whether a piece of data was torn.

ghost use Rattle.std.specs.Prelude.{◌≡◌, ◌≤◌, true, false, OnErr, OnOk, is_err, length};
ghost use Rattle.std.specs.Io.{ReadsAtMost};
ghost use Rattle.byte_io.specs.Counts.{Rose};
ghost use Rattle.byte_io.specs.Pieces.{PutAppends, PutCause};
ghost use Rattle.player_lines.specs.inner.Pasts.{ReadAdds, Said, told};

use crate::client::{Client, Failed};
use byte_io::{PutFault, Sink};
use std::alloc::AllocError;

/// A client, as a sink of the data of an answer: each piece that is put goes to the client at once, after a line
/// `data B` with the number of its bytes.
///
/// For clauses it holds the past in which the answer had not begun, as numbers, and the data since.
#[derive(Drop)]
pub struct Session<C> {
    pub(crate) client: C,
    /// Whether the client failed in a piece of data. Then it takes no more.
    pub(crate) torn: bool,
    /// How many pieces were refused after that.
    refused: u64,
}

impl<C: Client> Session<C> {
    /// A session with a client.
    pub fn new(client: C) -> Session<C>
        ensures { (result.client ≡ client) × (result.torn ≡ false) }
    {
        Session {
            client,
            torn: false,
            refused: 0,
        }
    }

    /// The client again.
    pub fn into_client(self) -> C
        ensures { result ≡ self.client }
    {
        let Session { client, .. } = self;
        client
    }

    /// Whether the client failed in a piece of data.
    pub fn is_torn(&self) -> bool
        ensures { result ≡ self.now.torn }
    {
        self.torn
    }

    /// Gives bytes of the client.
    pub(crate) fn read(&mut self, buf: &mut [u8]) -> Result<usize, Failed>
        requires room { 1 ≤ length buf.old }
        ensures bound { ReadsAtMost result buf.new }
        ensures adds { ReadAdds (C.past self.old.client) (C.past self.new.client) result buf.new }
        ensures torn { self.new.torn ≡ self.old.torn }
        ensures last { C.has_failed self.new.client ≡ is_err result }
        ensures puts { C.put_faults self.new.client ≡ C.put_faults self.old.client }
    {
        self.client.read(buf)
    }

    /// Puts text of the last line of an answer.
    #[tactic(auto, using(crate::proofs::Telling::text_said))]
    pub fn put_text(&mut self, text: &[u8]) -> Result<(), Failed>
        ensures said { Said (C.past self.old.client) (C.past self.new.client) text.now result }
        ensures torn { self.new.torn ≡ self.old.torn }
        ensures refused { self.new.refused ≡ self.old.refused }
        ensures grows { C.put_faults self.old.client ≤ C.put_faults self.new.client }
        ensures cause { OnErr result (Rose (C.put_faults self.old.client) (C.put_faults self.new.client)) }
    {
        self.client.put_text(text)
    }
}

impl<C: Client> Sink for Session<C> {
    type Place = ();

    ghost held = { λ s. told s.torn (C.past s.client) };

    ghost faults = { λ s. C.put_faults s.client };

    ghost refusals = { λ s. s.refused };

    ghost place = { λ _. tt };

    /// The empty piece adds nothing. After a piece in which the client failed, all others are refused for lack of
    /// memory: it isn't called again.
    #[tactic(auto, using(crate::proofs::Telling::data_put, crate::proofs::Telling::data_torn))]
    fn put(&mut self, piece: &[u8]) -> Result<(), PutFault>
        ensures bytes { PutAppends (told self.old.torn (C.past self.old.client)) (told self.new.torn (C.past self.new.client)) piece.now result }
        ensures grows { C.put_faults self.old.client ≤ C.put_faults self.new.client }
        ensures refused { self.old.refused ≤ self.new.refused }
        ensures cause { PutCause (C.put_faults self.old.client) (C.put_faults self.new.client) self.old.refused self.new.refused result }
        ensures torn { OnOk result (self.new.torn ≡ self.old.torn) }
    {
        if self.torn {
            self.refused = self.refused.saturating_add(1);
            return Err(PutFault::Memory(AllocError));
        }
        if piece.is_empty() {
            return Ok(());
        }
        match self.client.put_data(piece) {
            Ok(()) => Ok(()),
            Err(Failed) => {
                self.torn = true;
                Err(PutFault::Failed)
            }
        }
    }
}
