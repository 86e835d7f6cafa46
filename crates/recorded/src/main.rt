// Runs the recorded calls of cases.bin and prints what each hands over.
#![tactic(auto)]

mod calls;
mod gimbal;
mod guiding;
mod inputs;
mod kind;
mod player;
mod print;

use kind::Kind;
use playback::Sparing;
use player::Player;
use std::fs::File;
use std::io;

// The longest of the catalogues has 520 records.
const CATALOGUE_ROOM: usize = catalogue::RECORD_SIZE * 520;

// Nothing says that a file ends, so the calls are counted against a bound.
const MOST_CASES: u64 = 1000000;

// The next call, of some kind.
fn run(player: &mut Player<impl Print>, kind: Kind) -> io::Result<()> {
    match kind {
        Kind::Verdict => player.verdict(),
        Kind::List => player.list(),
        Kind::Direction => player.direction(),
        Kind::Catalogue => player.catalogue(),
        Kind::Ranking => player.ranking(),
        Kind::Search => player.search(),
        Kind::Attitude => player.attitude(),
        Kind::Chain => player.chain(),
        Kind::Reason => player.reason(),
        Kind::Index => player.index(),
        Kind::RankingByIndex => player.ranking_by_index(),
        Kind::ChainByIndex => player.chain_by_index(),
        Kind::Burst => player.burst(),
        Kind::Cosines => player.cosines(),
        Kind::Turned => player.turned(),
        Kind::Lens => player.lens(),
        Kind::Compare => player.compare(),
        Kind::Rival => player.rival(),
        Kind::Cut => player.cut(),
        Kind::GuiderStart => player.guider_start(),
        Kind::GuiderFrame => player.guider_frame(),
    }
}

// Every call up to the one of kind 0, and how many there are.
fn run_all(player: &mut Player<impl Print>) -> io::Result<u64> {
    for cases in 0..MOST_CASES {
        let number = playback::byte(&mut player.file);
        if number == 0 {
            return Ok(cases);
        }
        run(player, Kind::from(number))?;
    }
    Ok(MOST_CASES)
}

// Plays every call, with these rooms lent.
fn play(
    rt: &impl Print,
    file: Sparing<File>,
    bytes: &mut [u8],
    samples: &mut [u16],
    stars: &mut [u8],
    index: &mut [u8],
    ranking: &mut [u16],
) -> io::Result<u64> {
    let mut player = Player {
        rt,
        file,
        bytes,
        samples,
        stars,
        index,
        ranking,
    };
    run_all(&mut player)
}

// The largest buffers stand here, once, and are lent.
fn play_file(rt: &impl Print, file: Sparing<File>) -> io::Result<u64> {
    let mut bytes = [0u8; 2100000];
    let mut samples = [0u16; 1050000];
    let mut stars = [0u8; CATALOGUE_ROOM];
    let mut index = [0u8; 1570000];
    let mut ranking = [0u16; 4200];
    play(
        rt,
        file,
        &mut bytes,
        &mut samples,
        &mut stars,
        &mut index,
        &mut ranking,
    )
}

fn main(rt: HostRuntime) -> io::Result<()> {
    let inner = File::open(&rt, "cases.bin")?;
    let cases = play_file(&rt, Sparing { inner })?;
    println!(rt; "cases {cases}")
}
