//! The part of a client that writes pages.

ghost use Rattle.std.specs.Prelude.{◌≡◌, ◌+◌, ◌<◌, ◌≤◌, ◌^◌, [], ◌∷◌, ◌++◌, length, map, Some, None, IsSome, OnOk};
ghost use Rattle.std.specs.Option.{option_to_list};
ghost use Rattle.hs_base.specs.declared.limits.TheConstants.{FRAME_COST};
ghost use Rattle.hs_records.specs.Records.{piece_count, record_pieces};
ghost use Rattle.hs_words.specs.Buffers.{buffer_in, buffer_of};
ghost use Rattle.hs_client.specs.Core.{number_after};
ghost use Rattle.hs_replay_client.specs.Writing.{IsSound, Records, EndsTrace};
ghost use Rattle.hs_replay_client.specs.Inside.{writing_in};
ghost use Rattle.hs_replay_client.specs.Wells.{IsReadyFor};

use crate::well::Well;
use hs_base::Memory;
use hs_client::{ClientCore, Ended, Pointed};
use hs_records::{payloads_are_cut_from_the_front, piece_limit, pieces_are_counted};
use hs_words::Held;
use std::collections::VecDeque;

/// A client's core, and the chunks that it handed out and that wait.
#[derive(Drop)]
pub(crate) struct Writer {
    pub(crate) core: ClientCore<()>,
    pub(crate) chunks: VecDeque<Held<()>>,
}

impl Writer {
    /// Records a payload, in as few pieces as fit pages.
    pub(crate) fn point<W: Well>(
        &mut self,
        well: &mut W,
        moment: u64,
        payload: &[u8],
    ) -> Result<(), Memory>
        requires sound { IsSound self.old.core }
        requires open { IsSome self.old.core.trace }
        requires left { self.old.core.counted + piece_count self.old.core.size (length payload.now) ≤ self.old.core.calls }
        requires ready { IsReadyFor W.way well.old self.old.core.size (piece_count self.old.core.size (length payload.now)) }
        ensures { OnOk result (Records W.way (piece_count self.old.core.size (length payload.now)) (self.old.core.number + 1) (record_pieces self.old.core.size self.old.core.number moment payload.now)
            (writing_in self.old) (writing_in self.new) well.old well.new) }
    {
        payloads_are_cut_from_the_front();
        pieces_are_counted();
        let limit = piece_limit(self.core.size());
        let mut rest = payload;
        while rest.len() > limit {
            let (full, behind) = rest.split_at(limit);
            self.piece(well, moment, full, true)?;
            rest = behind;
        }
        self.piece(well, moment, rest, false)
    }

    /// Records a piece, the last of its record unless `more` is true. Where it needs a page, the full chunk of the page
    /// before joins those that wait, and then the new page draws a buffer.
    fn piece<W: Well>(
        &mut self,
        well: &mut W,
        moment: u64,
        payload: &[u8],
        more: bool,
    ) -> Result<(), Memory>
        requires sound { IsSound self.old.core }
        requires open { IsSome self.old.core.trace }
        requires left { self.old.core.counted < self.old.core.calls }
        requires ready { IsReadyFor W.way well.old self.old.core.size 1 }
        requires narrow { FRAME_COST + length payload.now ≤ self.old.core.size }
        ensures { OnOk result (Records W.way 1 (number_after more self.old.core.number) (record { number = self.old.core.number; moment = moment; payload = payload.now } ∷ [])
            (writing_in self.old) (writing_in self.new) well.old well.new) }
    {
        match self.core.piece(moment, payload, more) {
            Pointed::Written => Ok(()),
            Pointed::NeedPage(full) => {
                keep(&mut self.chunks, full)?;
                let drawn = well.next_draw()?;
                self.core.supply(drawn, moment, payload, more);
                Ok(())
            }
            Pointed::Spent | Pointed::NoTrace | Pointed::TooWide => unreachable!(),
        }
    }

    /// Ends the open trace, whose last chunk joins those that wait.
    pub(crate) fn end(&mut self) -> Result<(), Memory>
        requires sound { IsSound self.old.core }
        requires open { IsSome self.old.core.trace }
        requires left { self.old.core.counted < self.old.core.calls }
        ensures { OnOk result (EndsTrace (writing_in self.old) (writing_in self.new)) }
    {
        match self.core.end() {
            Ended::Ended(last) => keep(&mut self.chunks, last),
            Ended::Spent | Ended::NoTrace => unreachable!(),
        }
    }
}

/// A chunk that was handed out, if one was, joins those that wait.
fn keep(chunks: &mut VecDeque<Held<()>>, handed: Option<Held<()>>) -> Result<(), Memory>
    ensures { OnOk result (map buffer_of chunks.new.items ≡ map buffer_of chunks.old.items ++ option_to_list (buffer_in handed)) }
{
    if let Some(held) = handed {
        chunks.push_back(held)?;
    }
    Ok(())
}
