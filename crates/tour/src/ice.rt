// A rink's ice survey, worked through from beginning to end.
use crate::answers::print_answers;
use kinds::Thinnest;
use sequences::flat::FlatList;
use survey::Survey;
use survey::calls::Call;

const CALLS: [Call; 29] = [
    Call::Thinnest(0, 0),
    Call::Strike(0),
    // The corners of the rink first, then what lies between them.
    Call::Note(0, 312),
    Call::Note(1, 298),
    Call::Note(3, 305),
    Call::Note(2, 321),
    Call::Note(3, 307),
    Call::Note(1, 285),
    Call::Note(1, 2001),
    Call::Note(9, 2001),
    Call::Note(3, 290),
    Call::Note(5, 285),
    Call::Note(0, 300),
    Call::Note(8, 331),
    Call::Note(4, 315),
    Call::Note(7, 0),
    Call::Note(11, 2000),
    Call::Thinnest(0, 12),
    // A slip of the gauge: no ice is 0 thick.
    Call::Strike(7),
    Call::Thinnest(0, 11),
    Call::Thinnest(3, 11),
    Call::Thinnest(10, 11),
    Call::Thinnest(6, 6),
    Call::Thinnest(7, 6),
    Call::Thinnest(0, 12),
    Call::Note(0, 318),
    Call::Note(0, 302),
    Call::Note(13, 302),
    Call::Strike(65535),
];

pub fn survey_a_rink(rt: &HostRuntime) -> anyhow::Result<()> {
    println!(rt; "Ice survey: 12 slots, readings in tenths of a millimetre")?;
    let mut slots = [0u16; 12];
    let readings: FlatList<Thinnest> = FlatList::open(&mut slots);
    let mut survey = Survey::open(readings);
    let answers = survey.run(rt.alloc(), &CALLS)?;
    print_answers(rt, &CALLS, &answers)
}
