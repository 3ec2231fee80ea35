//! What a switch notices of frames that show a mistake on the segment.

ghost use Rattle.std.specs.Prelude.{◌≡◌};
ghost use Rattle.ipx_ethernet.specs.Notices.{frame_noticed, move_noticed, no_notices};

use ipx_wire::{Network, Node};

/// Who sent a frame: its source address, and the remote that it came from.
#[derive(Clone, Copy, Debug, PartialEq, Eq)]
pub struct Sender {
    pub node: Node,
    pub end: usize,
}

/// A router says that the segment has this network, which is not the port's.
#[derive(Clone, Copy, Debug, PartialEq, Eq)]
pub struct Claim {
    pub router: Sender,
    pub network: Network,
}

/// A station was heard at two remotes within a second.
#[derive(Clone, Copy, Debug, PartialEq, Eq)]
pub struct StationMove {
    pub node: Node,
    /// The remote where it was heard before.
    pub before: usize,
    /// The remote where it was heard last.
    pub after: usize,
}

/// What one frame shows.
#[derive(Clone, Copy, Debug, PartialEq, Eq)]
pub enum FrameNotice {
    /// Its source is the port's own address. The value is the remote that it came from.
    OwnFrame(usize),
    /// It holds a packet in another encapsulation than the port's. The value is who sent it.
    OtherEncapsulation(Sender),
    /// A router says that the segment has another network.
    OtherNetwork(Claim),
}

/// What was noticed of all frames. Each count stays at the greatest u64.
#[derive(Clone, Copy, Debug, PartialEq, Eq)]
pub struct Notices {
    /// How often a router said that the segment has another network.
    pub claims: u64,
    pub last_claim: Option<Claim>,
    /// How often a station was heard at two remotes within a second.
    pub moves: u64,
    pub last_move: Option<StationMove>,
    /// The remote that the last frame from the port's own address came from.
    pub last_own: Option<usize>,
    /// Who sent the last packet in another encapsulation.
    pub last_encapsulation: Option<Sender>,
}

impl Notices {
    /// Nothing was noticed yet.
    pub fn new() -> Notices
        ensures { result ≡ no_notices }
    {
        Notices {
            claims: 0,
            last_claim: None,
            moves: 0,
            last_move: None,
            last_own: None,
            last_encapsulation: None,
        }
    }

    /// Keeps what a frame shows.
    pub fn note_frame(&mut self, notice: Option<FrameNotice>)
        ensures { self.new ≡ frame_noticed notice self.old }
    {
        match notice {
            None => {}
            Some(FrameNotice::OwnFrame(end)) => self.last_own = Some(end),
            Some(FrameNotice::OtherEncapsulation(from)) => self.last_encapsulation = Some(from),
            Some(FrameNotice::OtherNetwork(claim)) => {
                self.claims = self.claims.saturating_add(1);
                self.last_claim = Some(claim);
            }
        }
    }

    /// Keeps that a station moved.
    pub fn note_move(&mut self, moved: Option<StationMove>)
        ensures { self.new ≡ move_noticed moved self.old }
    {
        if moved.is_some() {
            self.moves = self.moves.saturating_add(1);
            self.last_move = moved;
        }
    }
}
