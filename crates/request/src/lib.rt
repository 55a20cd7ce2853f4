// A USB request: its setup packet, how much data follows it, and which of the loader's requests it is.
#![tactic(auto)]

ghost use Rattle.std.specs.Prelude.{◌≡◌, cond, ◌+◌, ◌*◌};
ghost use Rattle.request.specs.Setup.{setup_of, data_length, fits_of};
ghost use Rattle.request.specs.Request.{request_of, outward_of, inward_of, asks_of, reads_of};

// The setup packet's fields, in the order of its eight bytes.
#[derive(Clone, Copy, Debug, PartialEq, Eq)]
pub struct Setup {
    pub kind: u8,
    pub code: u8,
    pub value: u16,
    pub index: u16,
    pub length: u16,
}

// The requests that the loader knows. What is none of them is Unknown.
#[derive(Clone, Copy, Debug, PartialEq, Eq)]
pub enum Request {
    Download,
    Upload,
    GetStatus,
    ClearStatus,
    GetState,
    Abort,
    Unknown,
}

// Has the request its eight bytes, and then as many as the setup asks for?
#[tactic(auto, unfolding(crate::specs::Setup::fits_of, crate::specs::Setup::data_length))]
pub fn fits(request: &[u8]) -> bool
    ensures { result ≡ fits_of request.now }
{
    8 <= request.len() && request.len() == 8 + Setup::of(request).data_length()
}

impl Setup {
    // The transfer size: the most data of a request, the size of the buffers lent for it, the step from block to block.
    pub const TRANSFER: u16 = 2048;

    // The first eight bytes of a request; bytes that are not there count as 0.
    #[tactic(auto, unfolding(crate::specs::Setup::setup_of))]
    pub fn of(request: &[u8]) -> Setup
        ensures { result ≡ setup_of request.now }
    {
        Setup {
            kind: buffer::byte_at(request, 0),
            code: buffer::byte_at(request, 1),
            value: u16::from_le_bytes(buffer::bytes_at(request, 2)),
            index: u16::from_le_bytes(buffer::bytes_at(request, 4)),
            length: u16::from_le_bytes(buffer::bytes_at(request, 6)),
        }
    }

    // How many bytes of data follow the setup.
    #[tactic(auto, unfolding(crate::specs::Setup::data_length))]
    pub fn data_length(self) -> usize
        ensures { result ≡ data_length self }
    {
        if self.kind < 128 {
            usize::from(self.length)
        } else {
            0
        }
    }

    // Which request this is, by type, code and fields.
    #[tactic(auto, unfolding(crate::specs::Request::request_of))]
    pub fn request(self) -> Request
        ensures { result ≡ request_of self }
    {
        match (self.kind, self.index) {
            (0x21, 0) => self.outward(),
            (0xA1, 0) => self.inward(),
            _ => Request::Unknown,
        }
    }

    // The requests from the host to the device.
    #[tactic(auto, unfolding(crate::specs::Request::outward_of))]
    fn outward(self) -> Request
        ensures { result ≡ outward_of self }
    {
        match self.code {
            1 if self.length <= Setup::TRANSFER => Request::Download,
            4 if self.asks(0) => Request::ClearStatus,
            6 if self.asks(0) => Request::Abort,
            _ => Request::Unknown,
        }
    }

    // The requests that the device answers with data.
    #[tactic(auto, unfolding(crate::specs::Request::inward_of))]
    fn inward(self) -> Request
        ensures { result ≡ inward_of self }
    {
        match self.code {
            2 if self.reads() => Request::Upload,
            3 if self.asks(6) => Request::GetStatus,
            5 if self.asks(1) => Request::GetState,
            _ => Request::Unknown,
        }
    }

    fn asks(self, length: u16) -> bool
        ensures { result ≡ asks_of self length }
    {
        self.value == 0 && self.length == length
    }

    fn reads(self) -> bool
        ensures { result ≡ reads_of self }
    {
        (1..=Setup::TRANSFER).contains(&self.length)
    }
}
