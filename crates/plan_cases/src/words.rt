// Which command words ask for which job.
use aftr_text::{
    HELP, Job, JobError, RunJob, UsageError, fault_line, read_job, read_words, usage_line,
};
use std::alloc::Global;
use std::test::Fail;

/// Words with one blank between them, and behind ` => ` the job that they ask for; a line without it asks for none.
const CASES: &str = "\
run in out v w t => run in out v w t workers 1
run in out v w in => run in out v w in workers 1
run - out v w t => run - out v w t workers 1
run run out v w t => run run out v w t workers 1
run in out v w t 2-4:t1 => run in out v w t load 2 4 t1 workers 1
run in out v w t 0-0:t 0-2147483648:t => run in out v w t load 0 0 t load 0 2147483648 t workers 1
run in out v w t 2-4:a:b => run in out v w t load 2 4 a:b workers 1
run in out v w t --workers 16 => run in out v w t workers 16
run --workers=4 in out v w t 1-1:u => run in out v w t load 1 1 u workers 4
run in out --errors 1000000 v w t => run in out v w t workers 1 errors 1000000
run in out v w t --errors=1 --workers 2 => run in out v w t workers 2 errors 1
run in out v w -- t => run in out v w t workers 1
run in out v w t -- => run in out v w t workers 1
run -- in -o --workers --help -- => run in -o --workers --help -- workers 1
run in -- -- v w t => run in -- v w t workers 1
check t => check t
check - => check -
check -- -t => check -t
who t 203.0.113.1 1236 => who t 3405803777 1236
who t 0.0.0.0 0 => who t 0 0
who t 255.255.255.255 65535 => who t 4294967295 65535
demo 0 1 1 => demo 0 1 1
demo 18446744073709551615 1000000 16 => demo 18446744073709551615 1000000 16
migrate t0 t1 => migrate t0 t1
migrate -- -a -b => migrate -a -b
help
-h
--help
walk t
Run in out v w t
run
run in out v w
run in out v w t u
run in out v w -t
run in out v w t --workers
run in out v w t --workers 0
run in out v w t --workers 17
run in out v w t --workers 01
run in out v w t --workers +1
run in out v w t --workers=
run in out v w t --workers=1=1
run in out v w t --workers 1 --workers=1
run in out v w t --worker 1
run in out v w t -workers 1
run --workers -- in out v w t
run in out v w t --errors
run in out v w t --errors 0
run in out v w t --errors 1000001
run in out v w t --errors 1 --errors 2
run in out v w t --help
run in  v w t
run in out v w 
run in out out w t
run in out v out t
run in out v v t
run in in v w t
run in out in w t
run in out v in t
run in t v w t
run in out t w t
run in out v t t
run in out v w t 1-2:out
run in out v w t 1-2:v
run in out v w t 1-2:u 1-2:w
run in out v w t 4-2:t1
run in out v w t 4-6:t1 3-7:t2
run in out v w t 4-6:t1 5-5:t2
run in out v w t 0-2147483649:t1
run in out v w t 02-4:t1
run in out v w t 2-04:t1
run in out v w t +2-4:t1
run in out v w t 2-4
run in out v w t 2:4:t1
run in out v w t 2-:t1
run in out v w t 2-4:
run in out v w t 2-4-6:t1
run in out v w t -- -4:t1
run in out v w t 2 -4:t1
check
check 
check t u
check -t
check t --workers 1
check t --errors=1
Check t
who t 203.0.113.1
who t 203.0.113.1 1 2
who  203.0.113.1 1
who -t 203.0.113.1 1
who t 203.0.113.01 1
who t 203.0.113 1
who t 2001:db8::1 1
who t 203.0.113.1 65536
who t 203.0.113.1 01
who t 203.0.113.1 -1
who t 203.0.113.1 
demo 0 1
demo 0 1 1 1
demo 18446744073709551616 1 1
demo 00 1 1
demo 0 0 1
demo 0 1000001 1
demo 0 1 0
demo 0 1 17
demo 0 1 1 --workers 1
migrate t0 t0
migrate t0
migrate t0 t1 t2
migrate  t1
migrate t0 ";

/// The run as the cases write it.
fn run_told(alloc: Global, run: &RunJob) -> Result<String, Fail> {
    let mut text = String::from_str(alloc, "run")?;
    let names = [
        run.input.as_str(),
        run.output.as_str(),
        run.verdicts.as_str(),
        run.versions.as_str(),
        run.table.as_str(),
    ];
    for name in names {
        text.push_str(" ")?;
        text.push_str(name)?;
    }
    for load in run.loads.as_slice() {
        let (earliest, latest) = (load.window.earliest, load.window.latest);
        let name = load.name.as_str();
        text.push_str(format!(in alloc; " load {earliest} {latest} {name}")?.as_str())?;
    }
    let workers = run.workers;
    text.push_str(format!(in alloc; " workers {workers}")?.as_str())?;
    if let Some(errors) = run.errors {
        text.push_str(format!(in alloc; " errors {errors}")?.as_str())?;
    }
    Ok(text)
}

/// The job as the cases write it.
fn job_told(alloc: Global, job: &Job) -> Result<String, Fail> {
    match job {
        Job::Run(run) => run_told(alloc, run),
        Job::Check { name } => {
            let name = name.as_str();
            Ok(format!(in alloc; "check {name}")?)
        }
        Job::Who { name, v4, port } => {
            let (name, v4) = (name.as_str(), v4.0);
            Ok(format!(in alloc; "who {name} {v4} {port}")?)
        }
        Job::Demo {
            seed,
            count,
            workers,
        } => Ok(format!(in alloc; "demo {seed} {count} {workers}")?),
        Job::Migrate { input, output } => {
            let (input, output) = (input.as_str(), output.as_str());
            Ok(format!(in alloc; "migrate {input} {output}")?)
        }
    }
}

/// The words of the line ask for the job behind them, or for none.
fn is_read(alloc: Global, line: &str) -> Result<bool, Fail> {
    let (words, job) = match line.split_once(" => ") {
        Some((words, job)) => (words, Some(job)),
        None => (line, None),
    };
    let words: Vec<&str> = words.split(' ').collect(alloc)?;
    match (read_words(alloc, &words), job) {
        (Ok(read), Some(job)) => Ok(job_told(alloc, &read)?.as_str() == job),
        (Err(UsageError::Usage), None) => Ok(true),
        _ => Ok(false),
    }
}

#[test]
fn jobs_of_words(rt: HostRuntime) -> Result<(), Fail> {
    for line in CASES.lines() {
        assert!(rt; is_read(rt.alloc(), line)?, "{line}");
    }
    Ok(())
}

#[test]
fn no_words_ask_for_nothing(rt: HostRuntime) -> Result<(), Fail> {
    let none: [&str; 0] = [];
    assert!(rt; matches!(read_words(rt.alloc(), &none), Err(UsageError::Usage)));
    Ok(())
}

/// How many loads are read of so many; none where the words ask for no job.
fn loads_read(alloc: Global, count: usize) -> Result<Option<usize>, Fail> {
    let mut words = Vec::new(alloc);
    words.extend_from_slice(&["run", "in", "out", "v", "w", "t"])?;
    for _ in 0..count {
        words.push("1-2:u")?;
    }
    match read_words(alloc, &words) {
        Ok(Job::Run(run)) => Ok(Some(run.loads.as_slice().len())),
        _ => Ok(None),
    }
}

#[test]
fn at_most_255_loads(rt: HostRuntime) -> Result<(), Fail> {
    assert!(rt; loads_read(rt.alloc(), 255)? == Some(255));
    assert!(rt; loads_read(rt.alloc(), 256)?.is_none());
    Ok(())
}

#[test]
fn the_help_names_each_command(rt: HostRuntime) -> Result<(), Fail> {
    for command in ["run", "check", "who", "demo", "migrate"] {
        assert!(rt;
            HELP.lines()
                .any(|line| line.split(' ').nth(1) == Some(command)),
            "{command}"
        );
    }
    assert!(rt; (20..=30).contains(&HELP.lines().count()));
    Ok(())
}

/// Words that ask for no job, and behind ` => ` what is wrong with them.
const FAULTS: &str = "\
walk t => `walk` is not a command; the commands are run, check, who, demo and migrate
--help => `--help` is not a command; the commands are run, check, who, demo and migrate
run => run takes 5 to 260 arguments (5 names, then loads), not 0
run in out v w => run takes 5 to 260 arguments (5 names, then loads), not 4
check => check takes 1 argument, not 0
check a b => check takes 1 argument, not 2
who t 203.0.113.1 => who takes 3 arguments, not 2
demo 1 2 => demo takes 3 arguments, not 2
migrate t => migrate takes 2 arguments, not 1
run in out v w t --worker 4 => word 7, `--worker`, is not an option (after `--` it would be an argument)
run -x in out v w -y => word 2, `-x`, is not an option (after `--` it would be an argument)
run in out v w t --workers -x -- -y => --workers: `-x` is not a number from 1 to 16
run in out v w t --workers => --workers needs a number after it
run in out v w t --errors => --errors needs a number after it
run in out v w t --workers 1 --workers=2 => --workers is given more than once
run in out v w t --errors 1 --errors 2 => --errors is given more than once
run in out v w t --workers 17 => --workers: `17` is not a number from 1 to 16
run in out v w t --workers= => --workers: `` is not a number from 1 to 16
run in out v w t --errors 1000001 => --errors: `1000001` is not a number from 1 to 1000000
check t --workers 2 => --workers and --errors are options of run alone
run in  v w t => OUT: a file's name may not be empty
who  203.0.113.1 1 => TABLE: a file's name may not be empty
migrate t  => NEW-TABLE: a file's name may not be empty
run in in v w t => OUT and another file of the run have the same name, `in`
run in out out w t => OUT and another file of the run have the same name, `out`
run in out t w t => VERDICTS and another file of the run have the same name, `t`
run in out v w t 1-2:u 3-4:w => VERSIONS and another file of the run have the same name, `w`
migrate t t => TABLE and NEW-TABLE have the same name, `t`
run in out v w t 1-2:u 9:u => load 2, `9:u`, is not EARLIEST-LATEST:TABLE with EARLIEST <= LATEST <= 2147483648
run in out v w t 4-2:u => load 1, `4-2:u`, is not EARLIEST-LATEST:TABLE with EARLIEST <= LATEST <= 2147483648
run in out v w t 1-2: => load 1, `1-2:`, is not EARLIEST-LATEST:TABLE with EARLIEST <= LATEST <= 2147483648
run in out v w t 4-6:t1 5-5:t2 => load 2, `5-5:t2`: its window begins or ends earlier than that of the load before it
who t 203.0.113 1 => ADDRESS: `203.0.113` is not an IPv4 address
who t 203.0.113.1 65536 => PORT: `65536` is not a number from 0 to 65535
demo x 2 3 => SEED: `x` is not a number from 0 to 18446744073709551615
demo 1 0 3 => COUNT: `0` is not a number from 1 to 1000000
demo 1 2 17 => WORKERS: `17` is not a number from 1 to 16";

/// What is wrong with the words of the line is told as behind them.
fn is_told(alloc: Global, line: &str) -> Result<bool, Fail> {
    let Some((words, told)) = line.split_once(" => ") else {
        return Ok(false);
    };
    let words: Vec<&str> = words.split(' ').collect(alloc)?;
    match read_job(alloc, &words) {
        Err(JobError::Refused(fault)) => {
            let line = fault_line(alloc, &words, fault)?;
            Ok(line.as_str().trim_end_matches('\n').strip_prefix("  ") == Some(told))
        }
        _ => Ok(false),
    }
}

#[test]
fn what_is_wrong_with_words(rt: HostRuntime) -> Result<(), Fail> {
    for line in FAULTS.lines() {
        assert!(rt; is_told(rt.alloc(), line)?, "{line}");
    }
    Ok(())
}

#[test]
fn usages_are_lines_of_the_help(rt: HostRuntime) -> Result<(), Fail> {
    for command in ["run", "check", "who", "demo", "migrate"] {
        let usage = usage_line(command).unwrap_or("");
        assert!(rt; HELP.lines().any(|line| line == usage), "{command}");
        assert!(rt; usage.split(' ').nth(1) == Some(command), "{command}");
    }
    assert!(rt; usage_line("walk").is_none());
    Ok(())
}
