//! The bytes of a name, read through a folder one after the other.
ghost use Rattle.std.specs.Prelude.{◌≡◌, ◌≤◌, ◌<◌, ◌+◌, ◌^◌, ◌↔◌, ◌∷◌, ℕ, List, [], Some, length};
ghost use Rattle.std.specs.Prelude.{IfOk, IsTrue, IsErrOf, IsErr};
ghost use Rattle.fx_edge.specs.OnlyReads.{OnlyReads};
ghost use Rattle.cert_bytes.specs.Reading.{byte_at};
ghost use Rattle.cert_bytes.specs.Pieces.{Gives, IsFilled, IsReady, IsEnd, IsFirst, IsLow, kept_of};
ghost use Rattle.cert_bytes.specs.Pieces.{AgreesTold, HasAhead};
ghost use Rattle.cert_bytes.specs.Calls.{ReadsOn};

use crate::fault::{CertFault, CertKind, Stop};
use crate::style::Style;
use fx_edge::{Failed, Folder};
use std::alloc::{AllocError, Global};
use std::marker::Model;

/// The byte at which a certificate is too long.
const LIMIT: u64 = 1 << 44;

/// How many bytes are read ahead. Each read opens the file anew.
const AHEAD: usize = 65536;

/// A place in the bytes of a name, with some bytes that were read ahead.
#[derive(Drop)]
pub struct Source {
    alloc: Global,
    name: String,
    style: Style,
    at: u64,
    buffer: [u8; AHEAD],
    // the bytes from `begin` to `end` of the buffer are those from `at` on
    begin: usize,
    end: usize,
}

impl Model for Source {
    ghost use Rattle.std.specs.Prelude.{◌≤◌, ◌<◌, ◌≡◌, ◌^◌, length, slice_range};
    ghost use Rattle.std.specs.String.{string_bytes};
    ghost use Rattle.cert_bytes.specs.Pieces.{Ahead};

    ghost Value = { Ahead };

    ghost view = { λ s. record {
      name = string_bytes s.name;
      style = s.style;
      at = s.at;
      ahead = slice_range s.buffer s.begin s.end;
    } };

    ghost invariant = { λ s. (s.begin ≤ s.end) × (s.end ≤ length s.buffer) × (s.at ≤ 2 ^ 44) };
}

fn is_truncated(at: u64) -> Stop
    ensures { result ≡ Stop.Fault (record { kind = CertKind.Truncated; at = at }) }
{
    Stop::Fault(CertFault {
        kind: CertKind::Truncated,
        at,
    })
}

fn is_too_long() -> Stop
    ensures { result ≡ Stop.Fault (record { kind = CertKind.TooLong; at = 17592186044416 }) }
{
    Stop::Fault(CertFault {
        kind: CertKind::TooLong,
        at: LIMIT,
    })
}

impl Source {
    /// The first byte of a name.
    pub fn new(alloc: Global, name: &str, style: Style) -> Result<Source, AllocError>
        ensures { IfOk result (λ source. source
            ≡ record { name = name.now; style = style; at = 0; ahead = [] }) }
    {
        let name = String::from_str(alloc, name)?;
        Ok(Source {
            alloc,
            name,
            style,
            at: 0,
            buffer: [0; AHEAD],
            begin: 0,
            end: 0,
        })
    }

    /// Where memory is taken.
    pub fn alloc(&self) -> Global {
        self.alloc
    }

    /// How numbers are spelled.
    #[inline(always)]
    pub fn style(&self) -> Style
        ensures { result ≡ self.now.style }
    {
        self.style
    }

    /// From here on numbers are spelled in this way.
    #[inline(always)]
    pub fn restyle(&mut self, style: Style)
        ensures { self.new ≡ record {
          name = self.old.name;
          style = style;
          at = self.old.at;
          ahead = self.old.ahead;
        } }
    {
        self.style = style;
    }

    /// The offset.
    #[inline(always)]
    pub fn at(&self) -> u64
        ensures { result ≡ self.now.at }
    {
        self.at
    }

    /// Nothing is done. The clauses tell a caller how far the offset goes, and how much is read
    /// ahead.
    pub fn bounded(&self)
        ensures within { self.now.at ≤ 2 ^ 44 }
        ensures few { length self.now.ahead ≤ 65536 }
    {
        let buffer: &[u8] = &self.buffer;
        let _ = buffer.len();
    }

    /// Goes back to an earlier offset, where numbers are spelled in this way.
    pub fn back(&mut self, at: u64, style: Style)
        requires { at ≤ self.old.at }
        ensures { self.new ≡ record { name = self.old.name; style = style; at = at; ahead = [] } }
    {
        self.style = style;
        self.at = at;
        self.begin = 0;
        self.end = 0;
    }

    // Whether nothing is read ahead.
    #[inline(always)]
    fn is_dry(&self) -> bool
        ensures { IsTrue result ↔ (self.now.ahead ≡ []) }
    {
        self.begin == self.end
    }

    // Reads ahead.
    #[cold]
    #[inline(never)]
    fn fill<F: Folder>(&mut self, folder: &mut F) -> Result<(), Failed>
        requires agrees { AgreesTold (F.told folder.old self.old.name) self.old }
        ensures filled { IfOk result (λ _. (all : List ℕ)
            → F.told folder.old self.old.name ≡ Some all → IsFilled all self.new) }
        ensures reads_on { ReadsOn kept_of (F.told folder.new) self.old self.new }
        ensures at { self.new.at ≡ self.old.at }
        ensures only_reads { OnlyReads F.Folder folder.old folder.new (IsErr result) }
    {
        self.begin = 0;
        self.end = 0;
        let count = folder.read(self.name.as_str(), self.at, &mut self.buffer)?;
        self.end = count;
        Ok(())
    }

    /// Whether a further byte is there, which is then read ahead. It fails where the folder does.
    #[inline(always)]
    pub fn ready<F: Folder>(&mut self, folder: &mut F) -> Result<bool, Failed>
        requires agrees { AgreesTold (F.told folder.old self.old.name) self.old }
        ensures ready { IfOk result (λ more. IsReady self.new more) }
        ensures end { IfOk result (λ more. (all : List ℕ)
            → F.told folder.old self.old.name ≡ Some all → IsEnd all self.new more) }
        ensures reads_on { ReadsOn kept_of (F.told folder.new) self.old self.new }
        ensures at { self.new.at ≡ self.old.at }
        ensures only_reads { OnlyReads F.Folder folder.old folder.new (IsErr result) }
    {
        if !self.is_dry() {
            return Ok(true);
        }
        self.fill(folder)?;
        Ok(!self.is_dry())
    }

    /// Whether so many bytes are read ahead, and byte 2^44 isn't one of them.
    #[inline(always)]
    pub fn has(&self, width: usize) -> bool
        requires { width ≤ 16 }
        ensures { IsTrue result → HasAhead width self.now }
    {
        width <= self.end - self.begin && self.at <= LIMIT - 16
    }

    // The next byte of those that were read ahead, which stays.
    #[inline(always)]
    fn first(&self) -> u8
        requires some { ¬ (self.now.ahead ≡ []) }
        ensures { IsFirst result self.now.ahead }
    {
        let buffer: &[u8] = &self.buffer;
        buffer[self.begin]
    }

    /// Whether the next byte is read ahead, is below 128, and isn't byte 2^44.
    #[inline(always)]
    pub fn has_low(&self) -> bool
        ensures low { IsTrue result → IsLow self.now.ahead }
        ensures room { IsTrue result → self.now.at < 2 ^ 44 }
    {
        if self.is_dry() || self.at >= LIMIT {
            return false;
        }
        self.first() < 128
    }

    /// The next byte of those that were read ahead.
    #[inline(always)]
    pub fn advance(&mut self) -> u8
        requires some { ¬ (self.old.ahead ≡ []) }
        requires room { self.old.at < 2 ^ 44 }
        ensures byte { self.old.ahead ≡ result ∷ self.new.ahead }
        ensures at { self.new.at ≡ self.old.at + 1 }
        ensures kept { kept_of self.new ≡ kept_of self.old }
    {
        let byte = self.buffer[self.begin];
        self.begin += 1;
        self.at += 1;
        byte
    }

    /// The next byte.
    #[inline(always)]
    #[tactic(auto, unfolding(crate::specs::Reading::byte_at))]
    pub fn byte<F: Folder>(&mut self, folder: &mut F) -> Result<u8, Stop>
        requires agrees { AgreesTold (F.told folder.old self.old.name) self.old }
        ensures gives { (all : List ℕ) → F.told folder.old self.old.name ≡ Some all
            → Gives (λ n. n) all self.old self.new result byte_at }
        ensures reads_on { ReadsOn kept_of (F.told folder.new) self.old self.new }
        ensures moves { IfOk result (λ _. self.old.at < self.new.at) }
        ensures only_reads { OnlyReads F.Folder folder.old folder.new (IsErrOf result Stop.Failed) }
    {
        if !self.ready(folder)? {
            return Err(is_truncated(self.at));
        }
        if self.at == LIMIT {
            return Err(is_too_long());
        }
        Ok(self.advance())
    }
}
