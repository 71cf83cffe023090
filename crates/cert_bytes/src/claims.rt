//! Numbers of the grid, intervals and facts, read through a folder.
ghost use Rattle.cert_bytes.specs.Reading.{point_at, end_at, interval_at, size_at, relative_at};
ghost use Rattle.cert_bytes.specs.Reading.{error_at, place_at, fact_at};

use crate::fault::{CertKind, Stop, fault};
use crate::field::Field;
use crate::kept::number_from;
use crate::source::Source;
use dyadic::{Dyadic, End};
use facts::{Fact, FixPlace, RelativeError, Size};
use fx_edge::Folder;
use fx_model::ExprId;
use interval::Interval;

impl Field for Dyadic {
    ghost read_at = { point_at };

    #[inline(always)]
    #[tactic(auto, unfolding(crate::specs::Reading::point_at))]
    fn read<F: Folder>(source: &mut Source, folder: &mut F) -> Result<Dyadic, Stop> {
        let start = source.at();
        let mantissa = i64::read(source, folder)?;
        let exponent = i16::read(source, folder)?;
        match number_from(mantissa, i32::from(exponent)) {
            Some(value) => Ok(value),
            None => Err(fault(CertKind::BadNumber, start)),
        }
    }
}

impl Field for End {
    ghost read_at = { end_at };

    #[inline(always)]
    #[tactic(auto, unfolding(crate::specs::Reading::end_at))]
    fn read<F: Folder>(source: &mut Source, folder: &mut F) -> Result<End, Stop> {
        let start = source.at();
        match u8::read(source, folder)? {
            0 => Ok(End::At(Dyadic::read(source, folder)?)),
            1 => Ok(End::Low),
            2 => Ok(End::High),
            _ => Err(fault(CertKind::BadTag, start)),
        }
    }
}

impl Field for Interval {
    ghost read_at = { interval_at };

    #[inline(always)]
    #[tactic(auto, unfolding(crate::specs::Reading::interval_at))]
    fn read<F: Folder>(source: &mut Source, folder: &mut F) -> Result<Interval, Stop> {
        let start = source.at();
        let low = End::read(source, folder)?;
        let high = End::read(source, folder)?;
        match Interval::new(low, high) {
            Some(value) => Ok(value),
            None => Err(fault(CertKind::BadNumber, start)),
        }
    }
}

impl Field for Size {
    ghost read_at = { size_at };

    #[inline(always)]
    #[tactic(auto, unfolding(crate::specs::Reading::size_at))]
    fn read<F: Folder>(source: &mut Source, folder: &mut F) -> Result<Size, Stop> {
        let start = source.at();
        let range = Interval::read(source, folder)?;
        match Size::new(range) {
            Some(value) => Ok(value),
            None => Err(fault(CertKind::BadNumber, start)),
        }
    }
}

impl Field for RelativeError {
    ghost read_at = { relative_at };

    #[inline(always)]
    #[tactic(auto, unfolding(crate::specs::Reading::relative_at))]
    fn read<F: Folder>(source: &mut Source, folder: &mut F) -> Result<RelativeError, Stop> {
        let start = source.at();
        let range = Interval::read(source, folder)?;
        match RelativeError::new(range) {
            Some(value) => Ok(value),
            None => Err(fault(CertKind::BadNumber, start)),
        }
    }
}

impl Field for Option<RelativeError> {
    ghost read_at = { error_at };

    #[inline(always)]
    #[tactic(auto, unfolding(crate::specs::Reading::error_at))]
    fn read<F: Folder>(source: &mut Source, folder: &mut F) -> Result<Option<RelativeError>, Stop> {
        let start = source.at();
        match u8::read(source, folder)? {
            0 => Ok(Some(RelativeError::read(source, folder)?)),
            1 => Ok(None),
            _ => Err(fault(CertKind::BadTag, start)),
        }
    }
}

impl Field for FixPlace {
    ghost read_at = { place_at };

    #[inline(always)]
    #[tactic(auto, unfolding(crate::specs::Reading::place_at))]
    fn read<F: Folder>(source: &mut Source, folder: &mut F) -> Result<FixPlace, Stop> {
        let start = source.at();
        let exponent = i16::read(source, folder)?;
        match FixPlace::new(exponent) {
            Some(value) => Ok(value),
            None => Err(fault(CertKind::BadNumber, start)),
        }
    }
}

impl Field for Fact {
    ghost read_at = { fact_at };

    #[inline(always)]
    #[tactic(auto, unfolding(crate::specs::Reading::fact_at, crate::specs::Reading::bnd_at, crate::specs::Reading::abs_at, crate::specs::Reading::rel_at, crate::specs::Reading::fix_at, crate::specs::Reading::nzr_at))]
    fn read<F: Folder>(source: &mut Source, folder: &mut F) -> Result<Fact, Stop> {
        let start = source.at();
        match u8::read(source, folder)? {
            1 => {
                let parts = <(ExprId, Interval)>::read(source, folder)?;
                Ok(Fact::Bnd(parts.0, parts.1))
            }
            2 => {
                let parts = <(ExprId, Size)>::read(source, folder)?;
                Ok(Fact::Abs(parts.0, parts.1))
            }
            3 => {
                let parts = <((ExprId, ExprId), Option<RelativeError>)>::read(source, folder)?;
                Ok(Fact::Rel(parts.0.0, parts.0.1, parts.1))
            }
            4 => {
                let parts = <(ExprId, FixPlace)>::read(source, folder)?;
                Ok(Fact::Fix(parts.0, parts.1))
            }
            5 => Ok(Fact::Nzr(ExprId::read(source, folder)?)),
            6 => Ok(Fact::Void),
            _ => Err(fault(CertKind::BadTag, start)),
        }
    }
}
