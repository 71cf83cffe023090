//! Numbers, read through a folder.
ghost use Rattle.std.specs.Prelude.{◌+◌, ◌≡◌, ◌≤◌, ◌<◌, ◌^◌, ℕ, List, Some, IfOk, IfSome, IsErrOf};
ghost use Rattle.fx_edge.specs.OnlyReads.{OnlyReads};
ghost use Rattle.cert_bytes.specs.Reading.{byte_at, number_at, limited_at, based_at, sized_at};
ghost use Rattle.cert_bytes.specs.Reading.{tiny_at, short_at, long_at, reference_at, wide_at};
ghost use Rattle.cert_bytes.specs.Reading.{signed_short_at, signed_long_at, expr_at};
ghost use Rattle.cert_bytes.specs.Pieces.{Gives, Agrees, AgreesTold, kept_of, cursor_of, HasAhead};
ghost use Rattle.cert_bytes.specs.Widths.{IsByteLimit, AreWidths, HasBegun};
ghost use Rattle.cert_bytes.specs.Calls.{ReadsOn};

use crate::based::{ended_near, ended_with, signed_long_by, signed_short_by, step_by};
use crate::fault::{CertKind, Stop, fault};
use crate::field::Field;
use crate::source::Source;
use crate::style::Style;
use fx_edge::Folder;
use fx_model::ExprId;

impl Source {
    // The next number of so many bytes, which are read ahead.
    #[inline(always)]
    fn number_ahead(&mut self, width: usize) -> u128
        requires width { width ≤ 16 }
        requires ahead { HasAhead width self.old }
        ensures gives { (all : List ℕ) → Agrees all self.old
            → number_at width (cursor_of all self.old) ≡ Ok (result, cursor_of all self.new) }
        ensures agrees { (all : List ℕ) → Agrees all self.old → Agrees all self.new }
        ensures small { result < 256 ^ width }
        ensures at { self.new.at ≡ self.old.at + width }
        ensures kept { kept_of self.new ≡ kept_of self.old }
    {
        let mut value = 0u128;
        let mut have = 0usize;
        while have < width {
            value = 256 * value + u128::from(self.advance());
            have += 1;
        }
        value
    }

    // The next number of so many bytes, also where more has to be read for it.
    #[cold]
    #[inline(never)]
    fn number_over<F: Folder>(&mut self, folder: &mut F, width: usize) -> Result<u128, Stop>
        requires width { width ≤ 16 }
        requires agrees { AgreesTold (F.told folder.old self.old.name) self.old }
        ensures gives { (all : List ℕ) → F.told folder.old self.old.name ≡ Some all
            → Gives (λ x. x) all self.old self.new result (number_at width) }
        ensures reads_on { ReadsOn kept_of (F.told folder.new) self.old self.new }
        ensures small { IfOk result (λ n. n < 256 ^ width) }
        ensures moves { IfOk result (λ _. self.old.at + width ≤ self.new.at) }
        ensures only_reads { OnlyReads F.Folder folder.old folder.new (IsErrOf result Stop.Failed) }
    {
        let mut value = 0u128;
        let mut have = 0usize;
        while have < width {
            value = 256 * value + u128::from(self.byte(folder)?);
            have += 1;
        }
        Ok(value)
    }

    /// The next number of so many bytes.
    #[inline(always)]
    pub fn digits<F: Folder>(&mut self, folder: &mut F, width: usize) -> Result<u128, Stop>
        requires width { width ≤ 16 }
        requires agrees { AgreesTold (F.told folder.old self.old.name) self.old }
        ensures gives { (all : List ℕ) → F.told folder.old self.old.name ≡ Some all
            → Gives (λ x. x) all self.old self.new result (number_at width) }
        ensures reads_on { ReadsOn kept_of (F.told folder.new) self.old self.new }
        ensures small { IfOk result (λ n. n < 256 ^ width) }
        ensures moves { IfOk result (λ _. self.old.at + width ≤ self.new.at) }
        ensures only_reads { OnlyReads F.Folder folder.old folder.new (IsErrOf result Stop.Failed) }
    {
        if self.has(width) {
            return Ok(self.number_ahead(width));
        }
        self.number_over(folder, width)
    }

    // A number in base 128, of so many bytes more at most, behind digits that make `value`; none
    // where there is none up to `most`.
    #[cold]
    #[inline(never)]
    fn limited_far<F: Folder>(
        &mut self,
        folder: &mut F,
        bytes: usize,
        most: u128,
        weight: u128,
        value: u128,
    ) -> Result<Option<u128>, Stop>
        requires begun { HasBegun bytes weight value }
        requires agrees { AgreesTold (F.told folder.old self.old.name) self.old }
        ensures gives { (all : List ℕ) → F.told folder.old self.old.name ≡ Some all
            → Gives (λ x. x) all self.old self.new result (limited_at bytes most weight value) }
        ensures reads_on { ReadsOn kept_of (F.told folder.new) self.old self.new }
        ensures small { IfOk result (λ o. IfSome o (λ n. n ≤ most)) }
        ensures moves { IfOk result (λ _. self.old.at < self.new.at) }
        ensures only_reads { OnlyReads F.Folder folder.old folder.new (IsErrOf result Stop.Failed) }
    {
        let mut sum = value;
        let mut worth = weight;
        let mut left = bytes;
        while left > 1 {
            let byte = self.byte(folder)?;
            if byte < 128 {
                return Ok(ended_with(worth, sum, byte, most));
            }
            sum += worth * u128::from(byte - 128);
            worth *= 128;
            left -= 1;
        }
        let byte = self.byte(folder)?;
        if byte < 128 {
            return Ok(ended_with(worth, sum, byte, most));
        }
        Ok(None)
    }

    // A number in base 128, of so many bytes at most; none where they spell none up to `most`.
    #[cold]
    #[inline(never)]
    fn limited<F: Folder>(
        &mut self,
        folder: &mut F,
        bytes: usize,
        most: u128,
    ) -> Result<Option<u128>, Stop>
        requires limit { IsByteLimit bytes }
        requires agrees { AgreesTold (F.told folder.old self.old.name) self.old }
        ensures gives { (all : List ℕ) → F.told folder.old self.old.name ≡ Some all
            → Gives (λ x. x) all self.old self.new result (limited_at bytes most 1 0) }
        ensures reads_on { ReadsOn kept_of (F.told folder.new) self.old self.new }
        ensures small { IfOk result (λ o. IfSome o (λ n. n ≤ most)) }
        ensures moves { IfOk result (λ _. self.old.at < self.new.at) }
        ensures only_reads { OnlyReads F.Folder folder.old folder.new (IsErrOf result Stop.Failed) }
    {
        let mut value = 0u64;
        let mut weight = 1u64;
        let mut have = 0usize;
        while have < 9 {
            let byte = self.byte(folder)?;
            if byte < 128 {
                return Ok(ended_near(weight, value, byte, most));
            }
            value += weight * u64::from(byte - 128);
            weight *= 128;
            have += 1;
        }
        Ok(self.limited_far(
            folder,
            bytes - 9,
            most,
            u128::from(weight),
            u128::from(value),
        )?)
    }

    // The same where nine bytes are read ahead.
    #[inline(always)]
    fn limited_ahead<F: Folder>(
        &mut self,
        folder: &mut F,
        bytes: usize,
        most: u128,
    ) -> Result<Option<u128>, Stop>
        requires limit { IsByteLimit bytes }
        requires ahead { HasAhead 9 self.old }
        requires agrees { AgreesTold (F.told folder.old self.old.name) self.old }
        ensures gives { (all : List ℕ) → F.told folder.old self.old.name ≡ Some all
            → Gives (λ x. x) all self.old self.new result (limited_at bytes most 1 0) }
        ensures reads_on { ReadsOn kept_of (F.told folder.new) self.old self.new }
        ensures small { IfOk result (λ o. IfSome o (λ n. n ≤ most)) }
        ensures moves { IfOk result (λ _. self.old.at < self.new.at) }
        ensures only_reads { OnlyReads F.Folder folder.old folder.new (IsErrOf result Stop.Failed) }
    {
        let mut value = 0u64;
        let mut weight = 1u64;
        let mut have = 0usize;
        while have < 9 {
            let byte = self.advance();
            if byte < 128 {
                return Ok(ended_near(weight, value, byte, most));
            }
            value += weight * u64::from(byte - 128);
            weight *= 128;
            have += 1;
        }
        Ok(self.limited_far(
            folder,
            bytes - 9,
            most,
            u128::from(weight),
            u128::from(value),
        )?)
    }

    // The same, by either of the two.
    #[inline(always)]
    fn limited_either<F: Folder>(
        &mut self,
        folder: &mut F,
        bytes: usize,
        most: u128,
    ) -> Result<Option<u128>, Stop>
        requires limit { IsByteLimit bytes }
        requires agrees { AgreesTold (F.told folder.old self.old.name) self.old }
        ensures gives { (all : List ℕ) → F.told folder.old self.old.name ≡ Some all
            → Gives (λ x. x) all self.old self.new result (limited_at bytes most 1 0) }
        ensures reads_on { ReadsOn kept_of (F.told folder.new) self.old self.new }
        ensures small { IfOk result (λ o. IfSome o (λ n. n ≤ most)) }
        ensures moves { IfOk result (λ _. self.old.at < self.new.at) }
        ensures only_reads { OnlyReads F.Folder folder.old folder.new (IsErrOf result Stop.Failed) }
    {
        if self.has(9) {
            return Ok(self.limited_ahead(folder, bytes, most)?);
        }
        Ok(self.limited(folder, bytes, most)?)
    }

    // The next number in base 128, of so many bytes at most, also where more has to be read for it.
    #[inline(never)]
    #[tactic(auto, unfolding(crate::specs::Reading::based_at))]
    fn based_over<F: Folder>(
        &mut self,
        folder: &mut F,
        bytes: usize,
        most: u128,
    ) -> Result<u128, Stop>
        requires limit { IsByteLimit bytes }
        requires agrees { AgreesTold (F.told folder.old self.old.name) self.old }
        ensures gives { (all : List ℕ) → F.told folder.old self.old.name ≡ Some all
            → Gives (λ x. x) all self.old self.new result (based_at bytes most) }
        ensures reads_on { ReadsOn kept_of (F.told folder.new) self.old self.new }
        ensures small { IfOk result (λ n. n ≤ most) }
        ensures moves { IfOk result (λ _. self.old.at < self.new.at) }
        ensures only_reads { OnlyReads F.Folder folder.old folder.new (IsErrOf result Stop.Failed) }
    {
        let start = self.at();
        match self.limited_either(folder, bytes, most)? {
            Some(number) => Ok(number),
            None => Err(fault(CertKind::BadNumber, start)),
        }
    }

    // The next number in base 128, of so many bytes at most.
    #[inline(always)]
    fn based<F: Folder>(&mut self, folder: &mut F, bytes: usize, most: u128) -> Result<u128, Stop>
        requires limit { IsByteLimit bytes }
        requires low { 127 ≤ most }
        requires agrees { AgreesTold (F.told folder.old self.old.name) self.old }
        ensures gives { (all : List ℕ) → F.told folder.old self.old.name ≡ Some all
            → Gives (λ x. x) all self.old self.new result (based_at bytes most) }
        ensures reads_on { ReadsOn kept_of (F.told folder.new) self.old self.new }
        ensures small { IfOk result (λ n. n ≤ most) }
        ensures moves { IfOk result (λ _. self.old.at < self.new.at) }
        ensures only_reads { OnlyReads F.Folder folder.old folder.new (IsErrOf result Stop.Failed) }
    {
        if self.has_low() {
            return Ok(u128::from(self.advance()));
        }
        self.based_over(folder, bytes, most)
    }

    /// The next number up to `most`: of `width` bytes in version 1, and of so many at most in
    /// version 2.
    #[inline(always)]
    #[tactic(auto, unfolding(crate::specs::Reading::sized_at))]
    pub fn sized<F: Folder>(
        &mut self,
        folder: &mut F,
        width: usize,
        bytes: usize,
        most: u128,
    ) -> Result<u128, Stop>
        requires widths { AreWidths width bytes most }
        requires agrees { AgreesTold (F.told folder.old self.old.name) self.old }
        ensures gives { (all : List ℕ) → F.told folder.old self.old.name ≡ Some all
            → Gives (λ x. x) all self.old self.new result (sized_at width bytes most) }
        ensures reads_on { ReadsOn kept_of (F.told folder.new) self.old self.new }
        ensures small { IfOk result (λ n. n ≤ most) }
        ensures moves { IfOk result (λ _. self.old.at < self.new.at) }
        ensures only_reads { OnlyReads F.Folder folder.old folder.new (IsErrOf result Stop.Failed) }
    {
        match self.style() {
            Style::First => Ok(self.digits(folder, width)?),
            Style::Second(_) => Ok(self.based(folder, bytes, most)?),
        }
    }

    /// The next number up to 255.
    #[inline(always)]
    pub fn tiny<F: Folder>(&mut self, folder: &mut F) -> Result<u8, Stop>
        requires agrees { AgreesTold (F.told folder.old self.old.name) self.old }
        ensures gives { (all : List ℕ) → F.told folder.old self.old.name ≡ Some all
            → Gives (λ x. x) all self.old self.new result tiny_at }
        ensures reads_on { ReadsOn kept_of (F.told folder.new) self.old self.new }
        ensures moves { IfOk result (λ _. self.old.at < self.new.at) }
        ensures only_reads { OnlyReads F.Folder folder.old folder.new (IsErrOf result Stop.Failed) }
    {
        Ok(self.sized(folder, 1, 10, 255)? as u8)
    }

    /// The next number below 2^64.
    #[inline(always)]
    pub fn long<F: Folder>(&mut self, folder: &mut F) -> Result<u64, Stop>
        requires agrees { AgreesTold (F.told folder.old self.old.name) self.old }
        ensures gives { (all : List ℕ) → F.told folder.old self.old.name ≡ Some all
            → Gives (λ x. x) all self.old self.new result long_at }
        ensures reads_on { ReadsOn kept_of (F.told folder.new) self.old self.new }
        ensures moves { IfOk result (λ _. self.old.at < self.new.at) }
        ensures only_reads { OnlyReads F.Folder folder.old folder.new (IsErrOf result Stop.Failed) }
    {
        Ok(self.sized(folder, 8, 10, 18446744073709551615)? as u64)
    }
}

impl Field for u8 {
    ghost read_at = { byte_at };

    #[inline(always)]
    fn read<F: Folder>(source: &mut Source, folder: &mut F) -> Result<u8, Stop> {
        source.byte(folder)
    }
}

impl Field for u16 {
    ghost read_at = { short_at };

    #[inline(always)]
    fn read<F: Folder>(source: &mut Source, folder: &mut F) -> Result<u16, Stop> {
        Ok(source.sized(folder, 2, 10, 65535)? as u16)
    }
}

/// The number of a step.
impl Field for u64 {
    ghost read_at = { reference_at };

    #[inline(always)]
    #[tactic(auto, unfolding(crate::specs::Reading::reference_at))]
    fn read<F: Folder>(source: &mut Source, folder: &mut F) -> Result<u64, Stop> {
        let style = source.style();
        let number = source.long(folder)?;
        Ok(step_by(style, number))
    }
}

/// The number of a literal.
impl Field for u128 {
    ghost read_at = { wide_at };

    #[inline(always)]
    fn read<F: Folder>(source: &mut Source, folder: &mut F) -> Result<u128, Stop> {
        source.sized(folder, 16, 19, 340282366920938463463374607431768211455)
    }
}

impl Field for i16 {
    ghost read_at = { signed_short_at };

    #[inline(always)]
    #[tactic(auto, unfolding(crate::specs::Reading::signed_short_at))]
    fn read<F: Folder>(source: &mut Source, folder: &mut F) -> Result<i16, Stop> {
        let style = source.style();
        let number = u16::read(source, folder)?;
        Ok(signed_short_by(style, number))
    }
}

impl Field for i64 {
    ghost read_at = { signed_long_at };

    #[inline(always)]
    #[tactic(auto, unfolding(crate::specs::Reading::signed_long_at))]
    fn read<F: Folder>(source: &mut Source, folder: &mut F) -> Result<i64, Stop> {
        let style = source.style();
        let number = source.long(folder)?;
        Ok(signed_long_by(style, number))
    }
}

impl Field for ExprId {
    ghost read_at = { expr_at };

    #[inline(always)]
    #[tactic(auto, unfolding(crate::specs::Reading::expr_at))]
    fn read<F: Folder>(source: &mut Source, folder: &mut F) -> Result<ExprId, Stop> {
        Ok(ExprId(u16::read(source, folder)?))
    }
}
