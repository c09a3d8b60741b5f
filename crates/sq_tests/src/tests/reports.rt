// What is written of a run and of an engine: for the same values the same bytes. The texts and the digests of the charts come from a
// program of its own, by the rules of their layout.
use sha2::{Digest, Sha256};
use sq_plan::PartId;
use sq_report::{
    LinkFigures, Moment, PartFigures, RunFigures, RunningRecord, ServeRecord, Spread, StageStart,
    TimedAnswer, Times, figures_json, status_json, status_text, write_csv, write_figures,
    write_metrics, write_svg,
};
use sq_serving::ServeMark;
use std::alloc::Global;
use std::test::Fail;

// Two of three jobs are answered, and one of two segments is complete.
const MOMENTS: [Moment; 3] = [
    Moment {
        micros: 1_500,
        jobs: 1,
        segments: 0,
        answer: Some(TimedAnswer {
            part: 0,
            id: 7,
            micros_since_post: 1_400,
            waited: None,
        }),
    },
    Moment {
        micros: 2_000,
        jobs: 1,
        segments: 1,
        answer: None,
    },
    Moment {
        micros: 12_345,
        jobs: 2,
        segments: 1,
        answer: Some(TimedAnswer {
            part: 1,
            id: 8,
            micros_since_post: 12_000,
            waited: Some(350),
        }),
    },
];

const ALL: Moment = Moment {
    micros: 20_000,
    jobs: 3,
    segments: 2,
    answer: None,
};

const STAGES: [StageStart; 2] = [
    StageStart {
        stage: 0,
        micros: 0,
    },
    StageStart {
        stage: 1,
        micros: 6_000,
    },
];

const VALUES: &str = "\
milliseconds,jobs,segments,partition,id,microseconds_since_post,waited,microseconds_waited
1.500,1,0,0,7,1400,no,
2.000,1,1,,,,,
12.345,2,1,1,8,12000,yes,350
";

// The digest of the chart.
const CHART: &str = "b55210c7eb74705bc95e101839c67629682bf2c4e79580903de926755efb19b7";

fn digest_of(alloc: Global, text: &[u8]) -> Result<String, Fail> {
    Ok(hex::encode(alloc, Sha256::digest(text))?)
}

#[test]
fn the_course_of_a_run(rt: HostRuntime) -> Result<(), Fail> {
    let mut values = Vec::new(rt.alloc());
    write_csv(&mut values, &MOMENTS)?;
    assert!(rt; values.as_slice() == VALUES.as_bytes());
    let mut chart = Vec::new(rt.alloc());
    write_svg(rt.alloc(), &mut chart, &MOMENTS, &STAGES, ALL)?;
    assert!(rt; digest_of(rt.alloc(), &chart)?.as_str() == CHART);
    Ok(())
}

const LINK: LinkFigures = LinkFigures {
    stage: 1,
    src: 0,
    dst: 12,
    keys: 4_096,
    families: 10,
    rows: 25,
    bytes: 1_400,
    chunks: 3,
};

// At the first partition no job has waited.
const PARTS: [PartFigures; 2] = [
    PartFigures {
        part: 0,
        committed: 20,
        aborted: 1,
        waited: 0,
        answers: Some(Spread {
            median: 10,
            p99: 90,
            longest: 120,
        }),
        waited_answers: None,
        waits: None,
    },
    PartFigures {
        part: 12,
        committed: 7,
        aborted: 2,
        waited: 4,
        answers: Some(Spread {
            median: 11,
            p99: 91,
            longest: 121,
        }),
        waited_answers: Some(Spread {
            median: 60,
            p99: 95,
            longest: 121,
        }),
        waits: Some(Spread {
            median: 40,
            p99: 70,
            longest: 88,
        }),
    },
];

const TABLES: &str = "\
stage  link        root keys    families        rows         bytes      chunks
    1   0 -> 12         4096          10          25          1400           3
partition   committed     aborted      waited
        0          20           1           0
       12           7           2           4
microseconds from post to answer
partition      median   99 of 100     longest
        0          10          90         120
       12          11          91         121
of those that waited
partition      median   99 of 100     longest
       12          60          95         121
microseconds for which these waited for rows
partition      median   99 of 100     longest
       12          40          70          88
milliseconds: reading 1.200, threads 34.005, audits 0.007
";

const FIGURES: &str =
    r#"{"links":[{"bytes":1400,"chunks":3,"dst":12,"families":10,"keys":4096,"rows":25,"src":0,"stage":1}],"microseconds":{"audits":7,"reading":1200,"threads":34005},"partitions":[{"aborted":1,"answers":{"longest":120,"median":10,"p99":90},"committed":20,"partition":0,"waited":0,"waited_answers":null,"waits":null},{"aborted":2,"answers":{"longest":121,"median":11,"p99":91},"committed":7,"partition":12,"waited":4,"waited_answers":{"longest":121,"median":60,"p99":95},"waits":{"longest":88,"median":40,"p99":70}}],"whole":true}"#;

fn figures(alloc: Global) -> Result<RunFigures, Fail> {
    Ok(RunFigures {
        is_whole: true,
        links: Vec::from_slice(alloc, &[LINK])?,
        parts: Vec::from_slice(alloc, &PARTS)?,
        times: Times {
            reading: 1_200,
            threads: 34_005,
            audits: 7,
        },
    })
}

#[test]
fn the_figures_of_a_run(rt: HostRuntime) -> Result<(), Fail> {
    let figures = figures(rt.alloc())?;
    let mut tables = Vec::new(rt.alloc());
    write_figures(&mut tables, &figures)?;
    assert!(rt; tables.as_slice() == TABLES.as_bytes());
    assert!(rt; figures_json(rt.alloc(), &figures)?.as_str() == FIGURES);
    Ok(())
}

const INTERVALS: &str = "\
milliseconds,answered,median,p99,longest,families,bytes,segments
0,1,2500,2500,2500,0,0,0
10,0,,,,3,250,1
20,1,13000,13000,13000,0,0,1
";

const ACCOUNT: &str = "\
jobs: committed 1, aborted 1, longest wait 13000 us
epochs: 2, longest pause 500 us, all pauses 500 us
move: segments 2, families 3, bytes 250, from 5000 to 32000 us, committed 0, aborted 1, longest wait 13000 us
";

const ACCOUNT_JSON: &str =
    r#"{"epochs":{"all_pauses":500,"count":2,"longest_pause":500},"jobs":{"aborted":1,"committed":1,"longest_wait":13000},"moves":[{"began":5000,"bytes":250,"done":32000,"families":3,"jobs":{"aborted":1,"committed":0,"longest_wait":13000},"segments":2}],"whole":true}
"#;

// The digest of the chart of an engine.
const ENGINE_CHART: &str = "ff1ab5e9952d73032f516a62faefd5314996c7d7207cf2d55ee12d9297ecf1ce";

fn offered(part: u8, id: u64) -> ServeMark {
    ServeMark::JobOffered {
        part: PartId::new(part),
        id,
    }
}

fn answered(part: u8, id: u64, is_commit: bool) -> ServeMark {
    ServeMark::JobAnswered {
        part: PartId::new(part),
        id,
        is_commit,
    }
}

// Two epochs with a job in each; while the second is answered two segments move.
fn marks_of_an_engine() -> [(u64, ServeMark); 12] {
    let moved = ServeMark::FamiliesMoved {
        families: 3,
        bytes: 250,
    };
    [
        (100, ServeMark::EpochBegins),
        (1_000, offered(0, 1)),
        (3_500, answered(0, 1, true)),
        (5_000, ServeMark::MoveBegins { segments: 2 }),
        (5_500, ServeMark::EpochEnds),
        (6_000, ServeMark::EpochBegins),
        (12_000, offered(1, 2)),
        (13_000, moved),
        (14_000, ServeMark::SegmentsComplete { complete: 1 }),
        (25_000, answered(1, 2, false)),
        (31_000, ServeMark::SegmentsComplete { complete: 2 }),
        (32_000, ServeMark::MoveEnds),
    ]
}

fn record_of_an_engine(alloc: Global) -> ServeRecord {
    let mut record = ServeRecord::new(alloc);
    for (micros, mark) in &marks_of_an_engine() {
        record.note(*mark, *micros);
    }
    record.end(40_000);
    record
}

#[test]
fn the_record_of_an_engine(rt: HostRuntime) -> Result<(), Fail> {
    let record = record_of_an_engine(rt.alloc());
    let mut text = Vec::new(rt.alloc());
    record.write_timeline(&mut text)?;
    assert!(rt; text.as_slice() == INTERVALS.as_bytes());
    text.clear();
    record.write_account(&mut text)?;
    assert!(rt; text.as_slice() == ACCOUNT.as_bytes());
    text.clear();
    record.write_json(rt.alloc(), &mut text)?;
    assert!(rt; text.as_slice() == ACCOUNT_JSON.as_bytes());
    text.clear();
    record.write_chart(rt.alloc(), &mut text)?;
    assert!(rt; digest_of(rt.alloc(), &text)?.as_str() == ENGINE_CHART);
    Ok(())
}

// The figures of the same engine once it is closed.
const FIGURES_JSON: &str =
    r#"{"aborted":1,"bytes_moved":250,"committed":1,"families_moved":3,"memory_bytes":null,"microseconds":40000,"move":null,"moves_done":1,"open":0,"open_at":[],"pumps":0,"state":"at rest","waits":{"longest":13000,"median":2500,"p99":13000}}"#;

const WAIT_METRICS: &str = "\
# HELP squall_wait_seconds How long jobs waited that were answered in the last second.
# TYPE squall_wait_seconds gauge
squall_wait_seconds{quantile=\"0.5\"} 0.002500
squall_wait_seconds{quantile=\"0.99\"} 0.013000
";

#[test]
fn the_figures_of_an_engine(rt: HostRuntime) -> Result<(), Fail> {
    let mut record = RunningRecord::new(rt.alloc())?;
    for (micros, mark) in &marks_of_an_engine() {
        record.note(*mark, *micros);
    }
    let figures = record.figures(None, None, 40_000)?;
    assert!(rt; status_text(rt.alloc(), &figures)?.as_str() == "");
    assert!(rt; status_json(rt.alloc(), &figures)?.as_str() == FIGURES_JSON);
    let mut text = Vec::new(rt.alloc());
    write_metrics(&mut text, &figures)?;
    let text = String::from_utf8(text).ok().ok_or("it is text")?;
    assert!(rt; text.as_str().contains(WAIT_METRICS));
    Ok(())
}
