//! Words as a shell gives them, and the plans that they mean.

use pg_words::{Algorithm, Plan, PlanFault, plan};
use std::alloc::Global;
use std::test::Fail;

/// The plan of the words, which stand in one text with a space after each.
fn planned(alloc: Global, line: &str) -> Result<Result<Plan, PlanFault>, Fail> {
    let mut words = Vec::new(alloc);
    for word in line.split_terminator(' ') {
        words.push(String::from_str(alloc, word)?)?;
    }
    Ok(plan(alloc, words.as_slice()))
}

fn is_refused(alloc: Global, line: &str) -> Result<bool, Fail> {
    match planned(alloc, line)? {
        Ok(_plan) => Ok(false),
        Err(PlanFault::BadWords) => Ok(true),
        Err(fault) => Err(Fail::from(fault)),
    }
}

#[test]
fn a_search_has_its_defaults(rt: HostRuntime) -> Result<(), Fail> {
    let plan = planned(rt.alloc(), "bfs A --source 7 ")??;
    assert!(rt; plan.algorithm == Algorithm::Bfs && plan.file.as_str() == "A" && plan.source == 7);
    assert!(rt; plan.ranks == 1 && plan.threads == 1 && plan.capacity == 1024);
    assert!(rt; plan.parts.is_none() && plan.delta == 0);
    assert!(rt; plan.width == 0 && plan.height == 0 && plan.seed == 0);
    Ok(())
}

#[test]
fn options_stand_anywhere(rt: HostRuntime) -> Result<(), Fail> {
    let alloc = rt.alloc();
    for line in [
        "bfs A --source=7 ",
        "bfs --source 7 A ",
        "--source 7 bfs A ",
        "--source=7 bfs -- A ",
    ] {
        let plan = planned(alloc, line)??;
        assert!(rt;
            plan.algorithm == Algorithm::Bfs && plan.file.as_str() == "A" && plan.source == 7
        );
    }
    Ok(())
}

#[test]
fn names_may_begin_with_hyphens_after_two(rt: HostRuntime) -> Result<(), Fail> {
    let alloc = rt.alloc();
    let plan = planned(alloc, "--source 1 -- bfs --ranks ")??;
    assert!(rt; plan.file.as_str() == "--ranks");
    let plan = planned(alloc, "bfs A --source 1 -- ")??;
    assert!(rt; plan.file.as_str() == "A");
    let plan = planned(alloc, "bfs - --source 1 ")??;
    assert!(rt; plan.file.as_str() == "-");
    Ok(())
}

#[test]
fn sources_reach_up_to_32_bits(rt: HostRuntime) -> Result<(), Fail> {
    let alloc = rt.alloc();
    for (line, source) in [
        ("bfs A --source 0 ", 0),
        ("bfs A --source 0000000007 ", 7),
        ("bfs A --source 4294967295 ", u32::MAX),
    ] {
        let plan = planned(alloc, line)??;
        assert_eq!(rt; plan.source, source);
    }
    Ok(())
}

#[test]
fn least_weights_have_a_delta_of_32_where_none_is_told(rt: HostRuntime) -> Result<(), Fail> {
    let alloc = rt.alloc();
    for (line, delta) in [
        ("sssp A --source 3 ", 32),
        ("sssp A --source 3 --delta 1 ", 1),
        ("--delta=4294967295 sssp A --source 3 ", u32::MAX),
    ] {
        let plan = planned(alloc, line)??;
        assert!(rt;
            plan.algorithm == Algorithm::Sssp && plan.file.as_str() == "A" && plan.source == 3
        );
        assert!(rt; plan.ranks == 1 && plan.threads == 1 && plan.capacity == 1024);
        assert!(rt; plan.parts.is_none());
        assert_eq!(rt; plan.delta, delta);
    }
    for line in [
        "sssp A ",
        "sssp A --delta 1 ",
        "sssp A --source 3 --delta 0 ",
        "sssp A --source 3 --delta 4294967296 ",
        "sssp A --source 3 --delta= ",
    ] {
        assert!(rt; is_refused(alloc, line)?);
    }
    Ok(())
}

#[test]
fn components_have_no_source_and_no_delta(rt: HostRuntime) -> Result<(), Fail> {
    let plan = planned(rt.alloc(), "components A ")??;
    assert!(rt; plan.algorithm == Algorithm::Components && plan.file.as_str() == "A");
    assert!(rt; plan.source == 0 && plan.delta == 0);
    assert!(rt; plan.ranks == 1 && plan.threads == 1 && plan.capacity == 1024);
    assert!(rt; plan.parts.is_none());
    Ok(())
}

#[test]
fn forests_and_colours_have_no_source_and_no_delta(rt: HostRuntime) -> Result<(), Fail> {
    let alloc = rt.alloc();
    for (line, algorithm) in [
        ("forest A ", Algorithm::Forest),
        ("colour A ", Algorithm::Colour),
    ] {
        let plan = planned(alloc, line)??;
        assert!(rt; plan.algorithm == algorithm && plan.file.as_str() == "A");
        assert!(rt; plan.source == 0 && plan.delta == 0);
        assert!(rt; plan.ranks == 1 && plan.threads == 1 && plan.capacity == 1024);
        assert!(rt; plan.parts.is_none());
    }
    Ok(())
}

#[test]
fn there_are_as_many_threads_as_ranks_where_none_are_told(rt: HostRuntime) -> Result<(), Fail> {
    let alloc = rt.alloc();
    for (line, ranks, threads) in [
        ("bfs A --source 1 --ranks 4 ", 4, 4),
        ("bfs A --source 1 --ranks 4 --threads 2 ", 4, 2),
        ("sssp A --source 1 --threads=32 ", 1, 32),
        ("components A --threads 1 --ranks 32 ", 32, 1),
    ] {
        let plan = planned(alloc, line)??;
        assert_eq!(rt; plan.ranks, ranks);
        assert_eq!(rt; plan.threads, threads);
    }
    for line in [
        "bfs A --source 1 --threads 0 ",
        "sssp A --source 1 --threads 33 ",
        "components A --threads= ",
    ] {
        assert!(rt; is_refused(alloc, line)?);
    }
    Ok(())
}

#[test]
fn each_algorithm_takes_a_partition_file_of_any_name(rt: HostRuntime) -> Result<(), Fail> {
    let alloc = rt.alloc();
    for (line, name) in [
        ("bfs A --source 1 --parts P ", "P"),
        ("sssp A --source 1 --parts=P ", "P"),
        ("components A --parts - ", "-"),
        ("components A --parts= ", ""),
        ("forest A --parts P ", "P"),
        ("colour A --parts=P ", "P"),
    ] {
        let plan = planned(alloc, line)??;
        assert!(rt; plan.file.as_str() == "A");
        assert!(rt; plan.parts.as_deref() == Some(name));
    }
    for line in ["components A --parts ", "components A --parts P --parts P "] {
        assert!(rt; is_refused(alloc, line)?);
    }
    Ok(())
}

#[test]
fn ranks_and_capacity_have_their_ranges(rt: HostRuntime) -> Result<(), Fail> {
    let alloc = rt.alloc();
    for (line, ranks, capacity) in [
        ("bfs A --source 1 --ranks 1 ", 1, 1024),
        ("bfs A --source 1 --ranks=2 ", 2, 1024),
        ("--ranks 32 bfs A --source 1 ", 32, 1024),
        ("bfs A --source 1 --capacity 1 ", 1, 1),
        ("bfs A --source 1 --capacity=1024 ", 1, 1024),
        ("bfs A --source 1 --ranks 32 --capacity 1 ", 32, 1),
    ] {
        let plan = planned(alloc, line)??;
        assert_eq!(rt; plan.ranks, ranks);
        assert_eq!(rt; plan.threads, ranks);
        assert_eq!(rt; plan.capacity, capacity);
    }
    for line in [
        "bfs A --source 1 --ranks 0 ",
        "bfs A --source 1 --ranks 33 ",
        "bfs A --source 1 --ranks= ",
        "bfs A --source 1 --capacity 0 ",
        "bfs A --source 1 --capacity 1025 ",
        "bfs A --source 1 --capacity x ",
    ] {
        assert!(rt; is_refused(alloc, line)?);
    }
    Ok(())
}

#[test]
fn words_that_are_no_command_line_are_refused(rt: HostRuntime) -> Result<(), Fail> {
    let alloc = rt.alloc();
    for line in [
        "",
        "bfs ",
        "bfs A ",
        "bfs --source 1 ",
        "bfs A --source ",
        "bfs A B --source 1 ",
        "bfs A --source 1 --source 1 ",
        "bfs A --source 1 --source=1 ",
        "bfs A --source x ",
        "bfs A --source= ",
        "bfs A --source -1 ",
        "bfs A --source=-1 ",
        "bfs A --source=+1 ",
        "bfs A --source -- 1 ",
        "bfs A --source 4294967296 ",
        "bfs A --source 00000000001 ",
        "bfs A --sourc 1 ",
        "bfs A --sources 1 ",
        "bfs A -s 1 ",
        "bfs -A --source 1 ",
        "--help ",
        "-h ",
        "help ",
        "--version ",
        "bfs A --source 1 --help ",
    ] {
        assert!(rt; is_refused(alloc, line)?);
    }
    Ok(())
}

#[test]
fn unknown_algorithms_are_refused(rt: HostRuntime) -> Result<(), Fail> {
    let alloc = rt.alloc();
    for line in ["grids --width 2 --height 2 --seed 7 ", "color A "] {
        assert!(rt; is_refused(alloc, line)?);
    }
    Ok(())
}

#[test]
fn options_of_other_algorithms_are_refused(rt: HostRuntime) -> Result<(), Fail> {
    let alloc = rt.alloc();
    for line in [
        "bfs A --source 1 --delta 4 ",
        "bfs A --source 1 --width 2 ",
        "bfs A --source 1 --height 2 ",
        "bfs A --source 1 --seed 7 ",
        "sssp A --source 1 --width 2 ",
        "components A --source 1 ",
        "components A --delta 4 ",
        "components A --seed 7 ",
        "forest A --source 1 ",
        "forest A --delta 4 ",
        "forest A --seed 7 ",
        "colour A --source 1 ",
        "colour A --delta 4 ",
        "colour A --width 2 ",
        "grid A --width 2 --height 2 --seed 7 ",
        "grid --width 2 --height 2 --seed 7 --source 1 ",
        "grid --width 2 --height 2 --seed 7 --parts P ",
    ] {
        assert!(rt; is_refused(alloc, line)?);
    }
    Ok(())
}

#[test]
fn grids_have_a_size_a_seed_and_a_delta(rt: HostRuntime) -> Result<(), Fail> {
    let alloc = rt.alloc();
    for (line, width, height, seed, delta) in [
        ("grid --width 2 --height 3 --seed 7 ", 2, 3, 7, 32),
        (
            "grid --delta=4 --seed=0 --height 1 --width 1048576 ",
            1_048_576,
            1,
            0,
            4,
        ),
        (
            "--width 1024 grid --height 1024 --seed 4294967295 ",
            1024,
            1024,
            u32::MAX,
            32,
        ),
    ] {
        let plan = planned(alloc, line)??;
        assert!(rt; plan.algorithm == Algorithm::Grid && plan.file.as_str() == "");
        assert!(rt; plan.parts.is_none() && plan.source == 0 && plan.delta == delta);
        assert!(rt; plan.width == width && plan.height == height && plan.seed == seed);
    }
    for line in [
        "grid ",
        "grid --width 2 --height 2 ",
        "grid --width 0 --height 2 --seed 7 ",
        "grid --width 1025 --height 1024 --seed 7 ",
        "grid --width 65536 --height 65536 --seed 7 ",
    ] {
        assert!(rt; is_refused(alloc, line)?);
    }
    Ok(())
}
