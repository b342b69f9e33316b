//! The bytes that are still to be read, and the parts whose length is fixed.
ghost use Rattle.std.specs.Prelude.{◌≡◌, ◌≤◌, Some, None, MatchResult, IfOk, length};
ghost use Rattle.std.specs.Prelude.{nat_lt};
ghost use Rattle.std.specs.Int.{w16, w32, w64};
ghost use Rattle.std.specs.Str.{IsUtf8};
ghost use Rattle.entry_codec.specs.Answers.{ReadsPartFrom, ReadsSlice};
ghost use Rattle.entry_codec.specs.Reading.{byte_in, counted_in, front_in, held_in, id_in};
ghost use Rattle.entry_codec.specs.Reading.{is_between, name_in, be_number_in, passed, time_in};
ghost use Rattle.entry_codec.specs.Reading.{latency_in};

use crate::naming::{Format, Names};
use crate::stop::Stop;
use sync_ids::{Fixed, MAX_TIMESTAMP, MessageId, Nonce};

// The bytes that are still to be read. After a refusal nothing is said of them.
#[derive(Drop)]
pub(crate) struct Front<'a> {
    pub(crate) rest: &'a [u8],
}

impl<'a> Front<'a> {
    #[tactic(auto, unfolding(crate::specs::Reading::byte_in))]
    pub(crate) fn read_byte(&mut self) -> Result<u8, Stop>
        ensures { ReadsPartFrom byte_in self.old.rest.now result self.new.rest.now }
    {
        let Some((byte, rest)) = self.rest.split_first() else {
            return Err(Stop::BadEntry);
        };
        let byte = *byte;
        self.rest = rest;
        Ok(byte)
    }

    #[tactic(auto, unfolding(crate::specs::Reading::front_in))]
    pub(crate) fn read_front(&mut self, count: usize) -> Result<&'a [u8], Stop>
        ensures read { ReadsSlice (front_in count) self.old.rest.now result self.new.rest.now }
        ensures len { IfOk result (λ front. length front.now ≡ count) }
    {
        let Some((front, rest)) = self.rest.split_at_checked(count) else {
            return Err(Stop::BadEntry);
        };
        self.rest = rest;
        Ok(front)
    }

    #[tactic(auto, unfolding(crate::specs::Reading::be_number_in))]
    pub(crate) fn read_u16(&mut self) -> Result<u16, Stop>
        ensures { ReadsPartFrom (be_number_in w16) self.old.rest.now result self.new.rest.now }
    {
        let mut bytes = [0; 2];
        bytes.copy_from_slice(self.read_front(2)?);
        Ok(u16::from_be_bytes(bytes))
    }

    #[tactic(auto, unfolding(crate::specs::Reading::be_number_in))]
    pub(crate) fn read_u32(&mut self) -> Result<u32, Stop>
        ensures { ReadsPartFrom (be_number_in w32) self.old.rest.now result self.new.rest.now }
    {
        let mut bytes = [0; 4];
        bytes.copy_from_slice(self.read_front(4)?);
        Ok(u32::from_be_bytes(bytes))
    }

    #[tactic(auto, unfolding(crate::specs::Reading::be_number_in))]
    pub(crate) fn read_u64(&mut self) -> Result<u64, Stop>
        ensures { ReadsPartFrom (be_number_in w64) self.old.rest.now result self.new.rest.now }
    {
        let mut bytes = [0; 8];
        bytes.copy_from_slice(self.read_front(8)?);
        Ok(u64::from_be_bytes(bytes))
    }

    pub(crate) fn read_id(&mut self) -> Result<MessageId, Stop>
        ensures { ReadsPartFrom id_in self.old.rest.now result self.new.rest.now }
    {
        let mut bytes = [0; 32];
        bytes.copy_from_slice(self.read_front(32)?);
        Ok(Fixed(bytes))
    }

    // The id of a message that is held, as the format names it.
    pub(crate) fn read_held<N: Names>(
        &mut self,
        format: Format,
        names: &N,
    ) -> Result<MessageId, Stop>
        ensures { ReadsPartFrom (held_in format (N.named names.now)) self.old.rest.now result
            self.new.rest.now }
    {
        match format {
            Format::Whole => self.read_id(),
            Format::Short => {
                let number = self.read_u32()?;
                match names.name(number) {
                    Some(id) => Ok(id),
                    None => Err(Stop::BadEntry),
                }
            }
        }
    }

    pub(crate) fn read_nonce(&mut self) -> Result<Nonce, Stop>
        ensures { ReadsPartFrom (front_in 16) self.old.rest.now result self.new.rest.now }
    {
        let mut bytes = [0; 16];
        bytes.copy_from_slice(self.read_front(16)?);
        Ok(Fixed(bytes))
    }

    #[tactic(auto, unfolding(crate::specs::Reading::time_in))]
    pub(crate) fn read_time(&mut self) -> Result<u64, Stop>
        ensures read { ReadsPartFrom time_in self.old.rest.now result self.new.rest.now }
        ensures within { IfOk result (λ time. time ≤ MAX_TIMESTAMP) }
    {
        let time = self.read_u64()?;
        if time > MAX_TIMESTAMP {
            return Err(Stop::BadEntry);
        }
        Ok(time)
    }

    #[tactic(auto, unfolding(crate::specs::Reading::latency_in))]
    pub(crate) fn read_latency(&mut self) -> Result<u32, Stop>
        ensures { ReadsPartFrom latency_in self.old.rest.now result self.new.rest.now }
    {
        let latency = self.read_u32()?;
        if latency == 0 {
            return Err(Stop::BadEntry);
        }
        Ok(latency)
    }

    // A number of two bytes within these limits.
    pub(crate) fn read_count(&mut self, least: usize, most: usize) -> Result<usize, Stop>
        ensures read { ReadsPartFrom (λ bytes. passed (is_between least most) (be_number_in w16 bytes))
            self.old.rest.now result self.new.rest.now }
        ensures least { IfOk result (λ count. least ≤ count) }
        ensures most { IfOk result (λ count. count ≤ most) }
    {
        let count = self.read_u16()? as usize;
        if count < least || count > most {
            return Err(Stop::BadEntry);
        }
        Ok(count)
    }

    // Bytes behind their number, which has two bytes and these limits.
    #[tactic(auto, unfolding(crate::specs::Reading::counted_in))]
    pub(crate) fn read_counted(&mut self, least: usize, most: usize) -> Result<&'a [u8], Stop>
        ensures read { ReadsSlice (counted_in least most) self.old.rest.now result
            self.new.rest.now }
        ensures least { IfOk result (λ front. least ≤ length front.now) }
        ensures most { IfOk result (λ front. length front.now ≤ most) }
    {
        let count = self.read_count(least, most)?;
        self.read_front(count)
    }
}
