// Programs of one class or several, with limits of their own, and what a run of each leaves.
use crate::set_rows::{Program, run};
use mvm_base::Line;
use mvm_history::Limits;
use std::alloc::{AllocError, Global};
use std::test::Fail;

// The limit that is not the one that every isolate has by default.
#[derive(Clone, Copy)]
pub(crate) enum Limit {
    None,
    Steps(u64),
    Heap(u64),
    Frames(u64),
    Threads(u64),
    Output(u64),
}

// A program, by the names and the texts of its classes, of which the first has `main`; what `main` is given; and what it must leave:
// its end with what nothing caught, as the report has them, and what it has printed.
#[derive(Clone, Copy)]
pub(crate) struct Row {
    pub classes: &'static [(&'static str, &'static str)],
    pub args: &'static [&'static str],
    pub limit: Limit,
    pub end: &'static str,
    pub output: &'static str,
}

// Arithmetic at its edges, texts that are one object or two, and what nothing catches.
const SINGLE: [Row; 5] = [
    Row {
        classes: &[(
            "Div",
            "class 33 Div java/lang/Object\nmethod 9 main ([Ljava/lang/String;)V\ncode 4 4\niconst_1\niconst_0\nidiv\nistore_1\nreturn\nend\n",
        )],
        args: &[],
        limit: Limit::None,
        end: "exit 1\nuncaught 0 java/lang/ArithmeticException",
        output: "",
    },
    Row {
        classes: &[(
            "Main",
            "class 33 Main java/lang/Object\nmethod 9 main ([Ljava/lang/String;)V\ncode 4 4\nldc -2147483648\niconst_m1\nidiv\ninvokestatic mvm/Sys.println:(I)V\nldc -2147483648\niconst_m1\nirem\ninvokestatic mvm/Sys.println:(I)V\niconst_1\nbipush 33\nishl\ninvokestatic mvm/Sys.println:(I)V\nreturn\nend\n",
        )],
        args: &[],
        limit: Limit::None,
        end: "exit 0",
        output: "-2147483648\n0\n2\n",
    },
    Row {
        classes: &[(
            "Main",
            "class 33 Main java/lang/Object\nmethod 9 fail ()V\ncode 4 4\nnew java/lang/IllegalStateException\ndup\nldc \"no\"\ninvokespecial java/lang/IllegalStateException.<init>:(Ljava/lang/String;)V\nathrow\nend\nmethod 9 main ([Ljava/lang/String;)V\ncode 4 4\ninvokestatic Main.fail:()V\nreturn\nend\n",
        )],
        args: &[],
        limit: Limit::None,
        end: "exit 1\nuncaught 0 java/lang/IllegalStateException: no",
        output: "",
    },
    Row {
        classes: &[(
            "Main",
            "class 33 Main java/lang/Object\nmethod 9 say (Z)V\ncode 4 4\ngetstatic java/lang/System.out:Ljava/io/PrintStream;\niload_0\ninvokevirtual java/io/PrintStream.println:(Z)V\nreturn\nend\nmethod 9 main ([Ljava/lang/String;)V\ncode 4 4\nldc \"a\"\nldc \"a\"\nif_acmpeq same\niconst_0\ngoto first\nsame:\niconst_1\nfirst:\ninvokestatic Main.say:(Z)V\nldc \"ab\"\niconst_0\niconst_1\ninvokevirtual java/lang/String.substring:(II)Ljava/lang/String;\nldc \"a\"\nif_acmpeq again\niconst_0\ngoto second\nagain:\niconst_1\nsecond:\ninvokestatic Main.say:(Z)V\nreturn\nend\n",
        )],
        args: &[],
        limit: Limit::None,
        end: "exit 0",
        output: "true\nfalse\n",
    },
    Row {
        classes: &[
            (
                "Main",
                "class 33 Main java/lang/Object\nmethod 9 main ([Ljava/lang/String;)V\ncode 4 4\nfrom:\niconst_m1\nnewarray 10\npop\nreturn\nto:\npop\nldc \"n\"\ninvokestatic Out.say:(Ljava/lang/String;)V\nreturn\ncatch from to to java/lang/NegativeArraySizeException\nend\n",
            ),
            (
                "Out",
                "class 33 Out java/lang/Object\nmethod 9 say (Ljava/lang/String;)V\ncode 2 1\ngetstatic java/lang/System.out:Ljava/io/PrintStream;\naload_0\ninvokevirtual java/io/PrintStream.println:(Ljava/lang/String;)V\nreturn\nend\n",
            ),
        ],
        args: &[],
        limit: Limit::None,
        end: "exit 0",
        output: "n\n",
    },
];

// Handlers (JVM Specification 2.10).
const THROWING: [Row; 10] = [
    Row {
        classes: &[(
            "Main",
            "class 33 Main java/lang/Object\nmethod 9 main ([Ljava/lang/String;)V\ncode 4 4\niconst_3\nistore_1\nfrom:\nnew java/lang/RuntimeException\ndup\ninvokespecial java/lang/RuntimeException.<init>:()V\nathrow\nhandler:\npop\niinc 1 -1\niload_1\ninvokestatic mvm/Sys.println:(I)V\niload_1\nifeq done\naconst_null\nathrow\ndone:\nreturn\ncatch from done handler java/lang/RuntimeException\nend\n",
        )],
        args: &[],
        limit: Limit::None,
        end: "exit 0",
        output: "2\n1\n0\n",
    },
    Row {
        classes: &[(
            "Main",
            "class 33 Main java/lang/Object\nmethod 9 main ([Ljava/lang/String;)V\ncode 4 4\niconst_3\nistore_1\nfrom:\nnew java/lang/RuntimeException\ndup\ninvokespecial java/lang/RuntimeException.<init>:()V\nathrow\nhandler:\npop\niinc 1 -1\niload_1\ninvokestatic mvm/Sys.println:(I)V\niload_1\nifeq done\naconst_null\nto:\nathrow\ndone:\nreturn\ncatch from to handler java/lang/RuntimeException\nend\n",
        )],
        args: &[],
        limit: Limit::None,
        end: "exit 1\nuncaught 0 java/lang/NullPointerException",
        output: "2\n",
    },
    Row {
        classes: &[(
            "Main",
            "class 33 Main java/lang/Object\nmethod 9 main ([Ljava/lang/String;)V\ncode 4 4\nfrom:\nnew java/lang/IllegalStateException\ndup\ninvokespecial java/lang/IllegalStateException.<init>:()V\nathrow\nfinally:\nastore_1\niconst_1\ninvokestatic mvm/Sys.println:(I)V\niconst_1\niconst_0\nidiv\npop\naload_1\nathrow\ncatch from finally finally any\nend\n",
        )],
        args: &[],
        limit: Limit::None,
        end: "exit 1\nuncaught 0 java/lang/ArithmeticException",
        output: "1\n",
    },
    Row {
        classes: &[(
            "Main",
            "class 33 Main java/lang/Object\nmethod 9 main ([Ljava/lang/String;)V\ncode 4 4\nfrom:\naconst_null\nathrow\nto:\npop\niconst_1\ninvokestatic mvm/Sys.println:(I)V\nreturn\nsecond:\npop\niconst_2\ninvokestatic mvm/Sys.println:(I)V\nreturn\nthird:\npop\niconst_3\ninvokestatic mvm/Sys.println:(I)V\nreturn\ncatch from to to java/lang/ArithmeticException\ncatch from to second java/lang/RuntimeException\ncatch from to third java/lang/NullPointerException\nend\n",
        )],
        args: &[],
        limit: Limit::None,
        end: "exit 0",
        output: "2\n",
    },
    Row {
        classes: &[(
            "Main",
            "class 33 Main java/lang/Object\nmethod 9 main ([Ljava/lang/String;)V\ncode 4 4\nfrom:\naconst_null\nathrow\nto:\npop\niconst_1\ninvokestatic mvm/Sys.println:(I)V\nreturn\nsecond:\npop\niconst_2\ninvokestatic mvm/Sys.println:(I)V\nreturn\ncatch from to to Gone\ncatch from to second any\nend\n",
        )],
        args: &[],
        limit: Limit::None,
        end: "exit 0",
        output: "2\n",
    },
    Row {
        classes: &[(
            "Main",
            "class 33 Main java/lang/Object\nmethod 9 main ([Ljava/lang/String;)V\ncode 4 4\niconst_5\niconst_4\nfrom:\niconst_1\niconst_0\nidiv\nto:\nhandler:\npop\npop\nreturn\ncatch from to handler any\nend\n",
        )],
        args: &[],
        limit: Limit::None,
        end: "exit 1\nuncaught 0 java/lang/VerifyError",
        output: "",
    },
    Row {
        classes: &[(
            "Main",
            "class 33 Main java/lang/Object\nmethod 9 fail ()V\ncode 1 0\naconst_null\nathrow\nend\nmethod 9 main ([Ljava/lang/String;)V\ncode 4 4\nfrom:\ninvokestatic Main.fail:()V\nto:\nreturn\nhandler:\npop\niconst_4\ninvokestatic mvm/Sys.println:(I)V\nreturn\ncatch from to handler java/lang/NullPointerException\nend\n",
        )],
        args: &[],
        limit: Limit::None,
        end: "exit 0",
        output: "4\n",
    },
    Row {
        classes: &[(
            "Main",
            "class 33 Main java/lang/Object\nmethod 9 fail ()V\ncode 1 0\naconst_null\nathrow\nend\nmethod 9 main ([Ljava/lang/String;)V\ncode 4 4\ninvokestatic Main.fail:()V\nfrom:\nnop\nto:\nreturn\nhandler:\npop\niconst_4\ninvokestatic mvm/Sys.println:(I)V\nreturn\ncatch from to handler java/lang/NullPointerException\nend\n",
        )],
        args: &[],
        limit: Limit::None,
        end: "exit 1\nuncaught 0 java/lang/NullPointerException",
        output: "",
    },
    Row {
        classes: &[(
            "Main",
            "class 33 Main java/lang/Object\nmethod 9 main ([Ljava/lang/String;)V\ncode 4 4\niconst_1\nistore_1\nfrom:\niconst_2\nistore_1\naconst_null\narraylength\nistore_1\nto:\nreturn\nhandler:\npop\niload_1\ninvokestatic mvm/Sys.println:(I)V\nreturn\ncatch from to handler any\nend\n",
        )],
        args: &[],
        limit: Limit::None,
        end: "exit 0",
        output: "2\n",
    },
    Row {
        classes: &[(
            "Main",
            "class 33 Main java/lang/Object\nmethod 9 main ([Ljava/lang/String;)V\ncode 4 4\nfrom:\nlconst_0\npop\nto:\nreturn\nhandler:\npop\niconst_1\ninvokestatic mvm/Sys.println:(I)V\nreturn\ncatch from to handler java/lang/VerifyError\nend\n",
        )],
        args: &[],
        limit: Limit::None,
        end: "exit 0",
        output: "1\n",
    },
];

// Monitors and what is thrown through them (2.11.10).
const MONITORS: [Row; 8] = [
    Row {
        classes: &[(
            "Main",
            "class 33 Main java/lang/Object\nmethod 41 third ()V\ncode 1 0\naconst_null\nathrow\nend\nmethod 41 second ()V\ncode 0 0\ninvokestatic Main.third:()V\nreturn\nend\nmethod 41 first ()V\ncode 0 0\ninvokestatic Main.second:()V\nreturn\nend\nmethod 9 main ([Ljava/lang/String;)V\ncode 4 4\nfrom:\ninvokestatic Main.first:()V\nreturn\nto:\npop\niconst_1\ninvokestatic mvm/Sys.println:(I)V\nldc Main\nmonitorexit\nreturn\ncatch from to to any\nend\n",
        )],
        args: &[],
        limit: Limit::None,
        end: "exit 1\nuncaught 0 java/lang/IllegalMonitorStateException",
        output: "1\n",
    },
    Row {
        classes: &[(
            "Main",
            "class 33 Main java/lang/Object\nmethod 41 third ()V\ncode 1 0\naconst_null\nathrow\nend\nmethod 41 second ()V\ncode 0 0\ninvokestatic Main.third:()V\nreturn\nend\nmethod 9 main ([Ljava/lang/String;)V\ncode 4 4\nldc Main\nmonitorenter\nfrom:\ninvokestatic Main.second:()V\nreturn\nto:\npop\nldc Main\nmonitorexit\niconst_1\ninvokestatic mvm/Sys.println:(I)V\nldc Main\nmonitorexit\nreturn\ncatch from to to any\nend\n",
        )],
        args: &[],
        limit: Limit::None,
        end: "exit 1\nuncaught 0 java/lang/IllegalMonitorStateException",
        output: "1\n",
    },
    Row {
        classes: &[
            (
                "Main",
                "class 33 Main java/lang/Object\nmethod 9 main ([Ljava/lang/String;)V\ncode 4 4\nnew A\nastore_1\nnew A\nastore_2\nfrom:\naload_1\naload_2\ninvokevirtual A.go:(LA;)V\nreturn\nto:\npop\ninner:\naload_1\nmonitorexit\nreturn\nsecond:\npop\niconst_1\ninvokestatic mvm/Sys.println:(I)V\naload_2\nmonitorexit\nreturn\ncatch from to to any\ncatch inner second second java/lang/IllegalMonitorStateException\nend\n",
            ),
            (
                "A",
                "class 33 A java/lang/Object\nmethod 33 go (LA;)V\ncode 2 2\naload_1\nifnull fail\naload_1\naconst_null\ninvokevirtual A.go:(LA;)V\nreturn\nfail:\naconst_null\nathrow\nend\n",
            ),
        ],
        args: &[],
        limit: Limit::None,
        end: "exit 1\nuncaught 0 java/lang/IllegalMonitorStateException",
        output: "1\n",
    },
    Row {
        classes: &[(
            "Main",
            "class 33 Main java/lang/Object\nmethod 41 left ()V\ncode 1 0\nldc Main\nmonitorexit\nreturn\nend\nmethod 9 main ([Ljava/lang/String;)V\ncode 4 4\ninvokestatic Main.left:()V\nreturn\nend\n",
        )],
        args: &[],
        limit: Limit::None,
        end: "exit 1\nuncaught 0 java/lang/IllegalMonitorStateException",
        output: "",
    },
    Row {
        classes: &[(
            "Main",
            "class 33 Main java/lang/Object\nmethod 41 left ()V\ncode 2 0\nldc Main\nmonitorexit\niconst_1\niconst_0\nidiv\npop\nreturn\nend\nmethod 9 main ([Ljava/lang/String;)V\ncode 4 4\ninvokestatic Main.left:()V\nreturn\nend\n",
        )],
        args: &[],
        limit: Limit::None,
        end: "exit 1\nuncaught 0 java/lang/ArithmeticException",
        output: "",
    },
    Row {
        classes: &[(
            "Main",
            "class 33 Main java/lang/Object\nmethod 41 left ()I\ncode 1 0\nldc Main\nmonitorexit\nreturn\nend\nmethod 9 main ([Ljava/lang/String;)V\ncode 4 4\ninvokestatic Main.left:()I\npop\nreturn\nend\n",
        )],
        args: &[],
        limit: Limit::None,
        end: "exit 1\nuncaught 0 java/lang/VerifyError",
        output: "",
    },
    Row {
        classes: &[(
            "Main",
            "class 33 Main java/lang/Object\nmethod 33 go ()V\ncode 0 1\nreturn\nend\nmethod 9 main ([Ljava/lang/String;)V\ncode 4 4\naconst_null\ninvokevirtual Main.go:()V\nreturn\nend\n",
        )],
        args: &[],
        limit: Limit::None,
        end: "exit 1\nuncaught 0 java/lang/NullPointerException",
        output: "",
    },
    Row {
        classes: &[(
            "Main",
            "class 33 Main java/lang/Object\nmethod 9 main ([Ljava/lang/String;)V\ncode 4 4\nldc Main\nmonitorenter\nldc Main\nmonitorenter\nldc Main\nmonitorexit\nldc Main\nmonitorexit\niconst_1\ninvokestatic mvm/Sys.println:(I)V\nldc Main\nmonitorexit\nreturn\nend\n",
        )],
        args: &[],
        limit: Limit::None,
        end: "exit 1\nuncaught 0 java/lang/IllegalMonitorStateException",
        output: "1\n",
    },
];

// The default limits, with this one in place of its like.
fn limits_with(limit: Limit) -> Limits {
    let mut limits = Limits::defaults();
    match limit {
        Limit::None => {}
        Limit::Steps(steps) => limits.steps = steps,
        Limit::Heap(heap) => limits.heap = heap,
        Limit::Frames(frames) => limits.frames = frames,
        Limit::Threads(threads) => limits.threads = threads,
        Limit::Output(output) => limits.output = output,
    }
    limits
}

// The report that a row leaves.
fn report_of(alloc: Global, row: &Row) -> Result<Line, Fail> {
    let program = Program {
        classes: row.classes,
        main: main_of(row.classes),
        args: row.args,
        limits: limits_with(row.limit),
    };
    Ok(run(alloc, &program)?.report)
}

// The name of the first class.
fn main_of(classes: &[(&'static str, &'static str)]) -> &'static str {
    match classes.first() {
        Some((name, _)) => name,
        None => "",
    }
}

// The report that a row must leave.
fn report_with(alloc: Global, row: &Row) -> Result<String, AllocError> {
    let status = if row.end.starts_with("exit 0") { 0 } else { 1 };
    format!(in alloc;
        "isolate 0 {}
end {}
output {}
{}done {}
",
        main_of(row.classes),
        row.end,
        row.output.len(),
        row.output,
        status
    )
}

// The reports that are not those that the rows must leave, each with the number of its row.
pub(crate) fn wrong(alloc: Global, rows: &[Row]) -> Result<String, Fail> {
    let mut wrong = String::new(alloc);
    for i in 0..rows.len() {
        let report = report_of(alloc, &rows[i])?;
        if report.as_str() != report_with(alloc, &rows[i])?.as_str() {
            wrong.push_str(format!(in alloc; "{i}: ")?.as_str())?;
            wrong.push_str(report.as_str())?;
        }
    }
    Ok(wrong)
}

#[test]
fn leaves_of_single_classes(rt: HostRuntime) -> Result<(), Fail> {
    assert_eq!(rt; wrong(rt.alloc(), &SINGLE)?.as_str(), "");
    Ok(())
}

#[test]
fn leaves_of_handlers(rt: HostRuntime) -> Result<(), Fail> {
    assert_eq!(rt; wrong(rt.alloc(), &THROWING)?.as_str(), "");
    Ok(())
}

#[test]
fn leaves_monitors(rt: HostRuntime) -> Result<(), Fail> {
    assert_eq!(rt; wrong(rt.alloc(), &MONITORS)?.as_str(), "");
    Ok(())
}
