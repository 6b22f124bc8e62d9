// Numbers in front of what is left of a payload, big-endian.
use crate::instead::Instead;

#[derive(Drop)]
pub(crate) struct Payload<'a> {
    pub rest: &'a [u8],
}

impl<'a> Payload<'a> {
    pub(crate) fn new(bytes: &'a [u8]) -> Self {
        Payload { rest: bytes }
    }

    fn take<const N: usize>(&mut self) -> Result<[u8; N], Instead> {
        let (front, rest) = self.rest.split_first_chunk::<N>().ok_or(Instead::Bad)?;
        self.rest = rest;
        Ok(*front)
    }

    pub(crate) fn u8(&mut self) -> Result<u8, Instead> {
        Ok(u8::from_be_bytes(self.take()?))
    }

    pub(crate) fn u16(&mut self) -> Result<u16, Instead> {
        Ok(u16::from_be_bytes(self.take()?))
    }

    pub(crate) fn u32(&mut self) -> Result<u32, Instead> {
        Ok(u32::from_be_bytes(self.take()?))
    }

    // The next `count` bytes.
    pub(crate) fn bytes(&mut self, count: usize) -> Result<&'a [u8], Instead> {
        let (front, rest) = self.rest.split_at_checked(count).ok_or(Instead::Bad)?;
        self.rest = rest;
        Ok(front)
    }
}
