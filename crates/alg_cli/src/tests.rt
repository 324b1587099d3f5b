//! Runs of the top call, each over memory.

mod by_field;
mod by_nsatz;
mod checks;
mod failing_ends;
mod loads;
mod nsatz_limits;
mod rows;
mod spoilt;
mod whole_files;

use crate::laws::{
    answers_are_accepted, check_accepts, migrates, reads_back, reads_back_with_answers,
};
use crate::status::Status;
use crate::top::run;
use alg_outside::{MemSink, MemSource};
use alg_universe::Rats;
use rows::{ANSWERED, ROWS};
use std::alloc::Global;
use std::test::Fail;

/// Words, each a text.
fn words_of(alloc: Global, texts: &[&str]) -> Result<Vec<String>, Fail> {
    let mut words = Vec::new(alloc);
    for text in texts {
        words.push(String::from_str(alloc, text)?)?;
    }
    Ok(words)
}

/// The word that asks for answers.
fn prove(alloc: Global) -> Result<Vec<String>, Fail> {
    words_of(alloc, &["prove"])
}

/// Two pieces, one after the other.
fn joined(alloc: Global, first: &str, second: &str) -> Result<Vec<u8>, Fail> {
    let mut all = Vec::from_slice(alloc, first.as_bytes())?;
    all.extend_from_slice(second.as_bytes())?;
    Ok(all)
}

/// What one word has the program write for an input, and how the run ends.
fn run_of(alloc: Global, word: &str, input: Vec<u8>) -> Result<(Vec<u8>, Status), Fail> {
    let words = words_of(alloc, &[word])?;
    let mut source = MemSource::new(input, 1000, Vec::new(alloc));
    let mut sink = MemSink::new(alloc, 100_000, 1000, Vec::new(alloc))?;
    let status = run::<Rats, _, _>(alloc, words.as_slice(), &mut source, &mut sink);
    Ok((sink.bytes().to_vec(alloc)?, status))
}

/// What `prove` writes for an input, and how it ends.
fn prove_run(alloc: Global, input: Vec<u8>) -> Result<(Vec<u8>, Status), Fail> {
    run_of(alloc, "prove", input)
}

#[test]
fn each_goal_is_written_back_with_its_answer(rt: HostRuntime) -> Result<(), Fail> {
    for rows in [
        ANSWERED.as_slice(),
        by_field::ANSWERED.as_slice(),
        by_nsatz::ANSWERED.as_slice(),
        nsatz_limits::ANSWERED.as_slice(),
    ] {
        for row in rows {
            let input = joined(rt.alloc(), row.file, "")?;
            let (output, status) = prove_run(rt.alloc(), input)?;
            let wanted = joined(rt.alloc(), row.file, row.answer)?;
            let shows = row.shows;
            assert_eq!(rt; output, wanted, "{shows}");
            assert_eq!(rt; status, row.status, "{shows}");
        }
    }
    Ok(())
}

#[test]
fn files_and_faults_are_told(rt: HostRuntime) -> Result<(), Fail> {
    for rows in [
        ROWS.as_slice(),
        by_field::ROWS.as_slice(),
        by_nsatz::ROWS.as_slice(),
    ] {
        for row in rows {
            let (output, status) = prove_run(rt.alloc(), row.input.to_vec(rt.alloc())?)?;
            let shows = row.shows;
            assert_eq!(rt; output.as_slice(), row.output.as_bytes(), "{shows}");
            assert_eq!(rt; status, row.status, "{shows}");
        }
    }
    Ok(())
}

/// A goal whose left side is so many times x.
fn long_sum(alloc: Global, count: u32) -> Result<Vec<u8>, Fail> {
    let mut file = Vec::from_slice(alloc, b"ring R.\nvar x : R.\ngoal x")?;
    for _ in 1..count {
        file.extend_from_slice(b"+x")?;
    }
    file.extend_from_slice(b" = 0 by ring.\n")?;
    Ok(file)
}

#[test]
fn a_term_may_be_1000_deep(rt: HostRuntime) -> Result<(), Fail> {
    let (_, status) = prove_run(rt.alloc(), long_sum(rt.alloc(), 1000)?)?;
    assert_eq!(rt; status, Status::NotAll, "1,000 are read");
    let (output, status) = prove_run(rt.alloc(), long_sum(rt.alloc(), 1001)?)?;
    assert_eq!(rt; output.as_slice(), b"refused 11 at 2023\n".as_slice());
    assert_eq!(rt; status, Status::Refused, "1,001 are not");
    Ok(())
}

#[test]
fn no_more_than_200_parentheses_may_be_open(rt: HostRuntime) -> Result<(), Fail> {
    let mut input = Vec::from_slice(rt.alloc(), b"ring R.\nvar x : R.\ngoal ")?;
    for _ in 0..201 {
        input.push(b'(')?;
    }
    let (output, status) = prove_run(rt.alloc(), input)?;
    assert_eq!(rt; output.as_slice(), b"refused 19 at 224\n".as_slice());
    assert_eq!(rt; status, Status::Refused);
    Ok(())
}

/// A file with so many variables, and one goal: their sum, in groups of thirty, is 0.
fn sum_of_variables(alloc: Global, count: u32) -> Result<Vec<u8>, Fail> {
    let mut file = Vec::from_slice(alloc, b"ring R.\nvar")?;
    for k in 0..count {
        let name = format!(in alloc; " x{k}")?;
        file.extend_from_slice(name.as_bytes())?;
    }
    file.extend_from_slice(b" : R.\ngoal x0")?;
    for k in 1..count {
        let between = if k % 30 != 0 {
            " + "
        } else if k == 30 {
            " + ("
        } else {
            ") + ("
        };
        let name = format!(in alloc; "{between}x{k}")?;
        file.extend_from_slice(name.as_bytes())?;
    }
    file.extend_from_slice(b") = 0 by ring.\n")?;
    Ok(file)
}

#[test]
fn a_goal_has_at_most_1000_atoms(rt: HostRuntime) -> Result<(), Fail> {
    let input = sum_of_variables(rt.alloc(), 1001)?;
    let mut wanted = Vec::from_slice(rt.alloc(), input.as_slice())?;
    wanted.extend_from_slice(b"  atoms.\n")?;
    let (output, status) = prove_run(rt.alloc(), input)?;
    assert_eq!(rt; output, wanted);
    assert_eq!(rt; status, Status::NotAll);
    Ok(())
}

/// 1/(1/(..x)), so many quotients deep, and x where there is none.
fn nested(alloc: Global, count: u32) -> Result<Vec<u8>, Fail> {
    let mut term = Vec::new(alloc);
    for k in 0..count {
        let front: &[u8] = if k + 1 < count { b"1/(" } else { b"1/" };
        term.extend_from_slice(front)?;
    }
    term.push(b'x')?;
    for _ in 1..count {
        term.push(b')')?;
    }
    Ok(term)
}

#[test]
fn quotients_may_be_190_deep(rt: HostRuntime) -> Result<(), Fail> {
    let mut input = Vec::from_slice(rt.alloc(), b"field F.\nvar x : F.\ngoal ")?;
    input.extend_from_slice(nested(rt.alloc(), 190)?.as_slice())?;
    input.extend_from_slice(b" = x by field.\n")?;
    let mut wanted = Vec::from_slice(rt.alloc(), input.as_slice())?;
    // Those of an odd depth have the numerator 1, so they are no conditions.
    wanted.extend_from_slice(b"  proved if x <> 0")?;
    for k in 1..95 {
        wanted.extend_from_slice(b", ")?;
        wanted.extend_from_slice(nested(rt.alloc(), 2 * k)?.as_slice())?;
        wanted.extend_from_slice(b" <> 0")?;
    }
    wanted.extend_from_slice(b".\n")?;
    let (output, status) = prove_run(rt.alloc(), input)?;
    assert_eq!(rt; output, wanted);
    assert_eq!(rt; status, Status::Done);
    Ok(())
}

#[test]
fn an_input_has_at_most_a_mebibyte(rt: HostRuntime) -> Result<(), Fail> {
    for (count, wanted, ending) in [
        (1_048_576, "", Status::Done),
        (1_048_577, "refused large\n", Status::Refused),
    ] {
        let input = vec![in rt.alloc(); b' '; count]?;
        let (output, status) = prove_run(rt.alloc(), input)?;
        assert_eq!(rt; output.as_slice(), wanted.as_bytes(), "{count}");
        assert_eq!(rt; status, ending, "{count}");
    }
    Ok(())
}

#[test]
fn for_other_words_the_usage_is_written_and_nothing_read(rt: HostRuntime) -> Result<(), Fail> {
    for row in [
        [].as_slice(),
        &["Prove"],
        &["prove", "prove"],
        &["check", "check"],
    ] {
        let words = words_of(rt.alloc(), row)?;
        let fails = vec![in rt.alloc(); 1u64]?;
        let mut source = MemSource::new(Vec::new(rt.alloc()), 1, fails);
        let mut sink = MemSink::new(rt.alloc(), 1000, 1000, Vec::new(rt.alloc()))?;
        let status = run::<Rats, _, _>(rt.alloc(), words.as_slice(), &mut source, &mut sink);
        assert_eq!(rt; status, Status::Usage, "{row:?}");
        assert_eq!(rt; sink.bytes(), b"usage\n".as_slice(), "{row:?}");
    }
    Ok(())
}

#[test]
fn each_end_has_its_own_code(rt: HostRuntime) {
    for (status, code) in [
        (Status::Done, 0),
        (Status::NotAll, 1),
        (Status::Refused, 2),
        (Status::Usage, 3),
        (Status::ReadFault, 4),
        (Status::WriteFault, 5),
        (Status::NoMemory, 6),
    ] {
        assert_eq!(rt; status.code(), code, "{status:?}");
    }
}

#[test]
fn the_laws_are_called() {
    reads_back();
    reads_back_with_answers();
    migrates();
    answers_are_accepted();
    check_accepts();
}
