// Programs of more than one thread, and what a run of each leaves.
use crate::program_rows::{Limit, Row, wrong};
use std::test::Fail;

// Threads (Java Language Specification, SE 8, 17.1 and 17.2): the attempts of all threads that can make one, in turn.
const THREADED: [Row; 17] = [
    Row {
        classes: &[
            (
                "Main",
                "class 33 Main java/lang/Object\nmethod 9 main ([Ljava/lang/String;)V\ncode 4 4\nnew T\ndup\ninvokespecial java/lang/Thread.<init>:()V\nastore_1\naload_1\ninvokevirtual java/lang/Thread.start:()V\ninvokestatic Once.touch:()V\naload_1\ninvokevirtual java/lang/Thread.join:()V\nreturn\nend\n",
            ),
            (
                "T",
                "class 33 T java/lang/Thread\nmethod 1 run ()V\ncode 4 4\ninvokestatic Once.touch:()V\nreturn\nend\n",
            ),
            (
                "Once",
                "class 33 Once java/lang/Object\nmethod 8 <clinit> ()V\ncode 4 4\nldc \"init\"\ninvokestatic Out.say:(Ljava/lang/String;)V\nreturn\nend\nmethod 9 touch ()V\ncode 4 4\nldc \"t\"\ninvokestatic Out.say:(Ljava/lang/String;)V\nreturn\nend\n",
            ),
            (
                "Out",
                "class 33 Out java/lang/Object\nmethod 9 say (Ljava/lang/String;)V\ncode 2 1\ngetstatic java/lang/System.out:Ljava/io/PrintStream;\naload_0\ninvokevirtual java/io/PrintStream.println:(Ljava/lang/String;)V\nreturn\nend\n",
            ),
        ],
        args: &[],
        limit: Limit::None,
        end: "exit 0",
        output: "init\nt\nt\n",
    },
    Row {
        classes: &[
            (
                "Main",
                "class 33 Main java/lang/Object\nmethod 9 main ([Ljava/lang/String;)V\ncode 4 4\nnew T\ndup\ninvokespecial java/lang/Thread.<init>:()V\nastore_1\naload_1\ninvokevirtual java/lang/Thread.start:()V\naload_1\ninvokevirtual java/lang/Thread.join:()V\niconst_2\ninvokestatic mvm/Sys.println:(I)V\nreturn\nend\n",
            ),
            (
                "T",
                "class 33 T java/lang/Thread\nmethod 1 run ()V\ncode 4 4\nnop\nnop\nnop\nnop\niconst_1\ninvokestatic mvm/Sys.println:(I)V\nreturn\nend\n",
            ),
        ],
        args: &[],
        limit: Limit::None,
        end: "exit 0",
        output: "1\n2\n",
    },
    Row {
        classes: &[
            (
                "Main",
                "class 33 Main java/lang/Object\nmethod 9 main ([Ljava/lang/String;)V\ncode 4 4\nnew T\ndup\ninvokespecial java/lang/Thread.<init>:()V\nastore_1\naload_1\ninvokevirtual java/lang/Thread.start:()V\niconst_1\ninvokestatic mvm/Sys.println:(I)V\niconst_1\ninvokestatic mvm/Sys.println:(I)V\niconst_1\ninvokestatic mvm/Sys.println:(I)V\nreturn\nend\n",
            ),
            (
                "T",
                "class 33 T java/lang/Thread\nmethod 1 run ()V\ncode 4 4\niconst_2\ninvokestatic mvm/Sys.println:(I)V\niconst_2\ninvokestatic mvm/Sys.println:(I)V\niconst_2\ninvokestatic mvm/Sys.println:(I)V\nreturn\nend\n",
            ),
        ],
        args: &[],
        limit: Limit::None,
        end: "exit 0",
        output: "1\n2\n1\n2\n1\n2\n",
    },
    Row {
        classes: &[
            (
                "Main",
                "class 33 Main java/lang/Object\nfield 9 x I\nmethod 9 inc ()V\ncode 2 0\ngetstatic Main.x:I\niconst_1\niadd\nputstatic Main.x:I\nreturn\nend\nmethod 9 main ([Ljava/lang/String;)V\ncode 4 4\nnew T\ndup\ninvokespecial java/lang/Thread.<init>:()V\nastore_1\naload_1\ninvokevirtual java/lang/Thread.start:()V\ninvokestatic Main.inc:()V\naload_1\ninvokevirtual java/lang/Thread.join:()V\ngetstatic Main.x:I\ninvokestatic mvm/Sys.println:(I)V\nreturn\nend\n",
            ),
            (
                "T",
                "class 33 T java/lang/Thread\nmethod 1 run ()V\ncode 4 4\ninvokestatic Main.inc:()V\nreturn\nend\n",
            ),
        ],
        args: &[],
        limit: Limit::None,
        end: "exit 0",
        output: "1\n",
    },
    Row {
        classes: &[
            (
                "Main",
                "class 33 Main java/lang/Object\nfield 9 x I\nmethod 41 inc ()V\ncode 2 0\ngetstatic Main.x:I\niconst_1\niadd\nputstatic Main.x:I\nreturn\nend\nmethod 9 main ([Ljava/lang/String;)V\ncode 4 4\nnew T\ndup\ninvokespecial java/lang/Thread.<init>:()V\nastore_1\naload_1\ninvokevirtual java/lang/Thread.start:()V\ninvokestatic Main.inc:()V\naload_1\ninvokevirtual java/lang/Thread.join:()V\ngetstatic Main.x:I\ninvokestatic mvm/Sys.println:(I)V\nreturn\nend\n",
            ),
            (
                "T",
                "class 33 T java/lang/Thread\nmethod 1 run ()V\ncode 4 4\ninvokestatic Main.inc:()V\nreturn\nend\n",
            ),
        ],
        args: &[],
        limit: Limit::None,
        end: "exit 0",
        output: "2\n",
    },
    Row {
        classes: &[
            (
                "Main",
                "class 33 Main java/lang/Object\nmethod 9 main ([Ljava/lang/String;)V\ncode 4 4\nldc Main\nmonitorenter\nnew T\ndup\ninvokespecial java/lang/Thread.<init>:()V\nastore_1\naload_1\ninvokevirtual java/lang/Thread.start:()V\niconst_1\ninvokestatic mvm/Sys.println:(I)V\nldc Main\ninvokevirtual java/lang/Object.wait:()V\niconst_3\ninvokestatic mvm/Sys.println:(I)V\nldc Main\nmonitorexit\nreturn\nend\n",
            ),
            (
                "T",
                "class 33 T java/lang/Thread\nmethod 1 run ()V\ncode 4 4\nldc Main\nmonitorenter\nldc Main\ninvokevirtual java/lang/Object.notify:()V\nnop\nnop\nnop\nnop\niconst_2\ninvokestatic mvm/Sys.println:(I)V\nldc Main\nmonitorexit\nreturn\nend\n",
            ),
        ],
        args: &[],
        limit: Limit::None,
        end: "exit 0",
        output: "1\n2\n3\n",
    },
    Row {
        classes: &[
            (
                "Main",
                "class 33 Main java/lang/Object\nmethod 9 main ([Ljava/lang/String;)V\ncode 4 4\nldc Main\nmonitorenter\nldc Main\nmonitorenter\nnew T\ndup\ninvokespecial java/lang/Thread.<init>:()V\nastore_1\naload_1\ninvokevirtual java/lang/Thread.start:()V\nldc Main\ninvokevirtual java/lang/Object.wait:()V\nldc Main\nmonitorexit\nldc Main\nmonitorexit\niconst_3\ninvokestatic mvm/Sys.println:(I)V\nldc Main\nmonitorexit\nreturn\nend\n",
            ),
            (
                "T",
                "class 33 T java/lang/Thread\nmethod 1 run ()V\ncode 4 4\nldc Main\nmonitorenter\nldc Main\ninvokevirtual java/lang/Object.notifyAll:()V\niconst_2\ninvokestatic mvm/Sys.println:(I)V\nldc Main\nmonitorexit\nreturn\nend\n",
            ),
        ],
        args: &[],
        limit: Limit::None,
        end: "exit 1\nuncaught 0 java/lang/IllegalMonitorStateException",
        output: "2\n3\n",
    },
    Row {
        classes: &[(
            "Main",
            "class 33 Main java/lang/Object\nmethod 9 main ([Ljava/lang/String;)V\ncode 4 4\nldc Main\nmonitorenter\niconst_1\ninvokestatic mvm/Sys.println:(I)V\nldc Main\ninvokevirtual java/lang/Object.wait:()V\niconst_2\ninvokestatic mvm/Sys.println:(I)V\nreturn\nend\n",
        )],
        args: &[],
        limit: Limit::None,
        end: "stalled",
        output: "1\n",
    },
    Row {
        classes: &[(
            "Main",
            "class 33 Main java/lang/Object\nmethod 9 main ([Ljava/lang/String;)V\ncode 4 4\nldc Main\nmonitorenter\nldc Main\ninvokevirtual java/lang/Object.notify:()V\nldc Main\ninvokevirtual java/lang/Object.wait:()V\nreturn\nend\n",
        )],
        args: &[],
        limit: Limit::None,
        end: "stalled",
        output: "",
    },
    Row {
        classes: &[
            (
                "Main",
                "class 33 Main java/lang/Object\nmethod 9 main ([Ljava/lang/String;)V\ncode 4 4\nldc Main\nmonitorenter\nnew T\ndup\ninvokespecial java/lang/Thread.<init>:()V\nastore_1\naload_1\ninvokevirtual java/lang/Thread.start:()V\naload_1\ninvokevirtual java/lang/Thread.join:()V\niconst_2\ninvokestatic mvm/Sys.println:(I)V\nreturn\nend\n",
            ),
            (
                "T",
                "class 33 T java/lang/Thread\nmethod 1 run ()V\ncode 4 4\niconst_1\ninvokestatic mvm/Sys.println:(I)V\nldc Main\nmonitorenter\niconst_3\ninvokestatic mvm/Sys.println:(I)V\nreturn\nend\n",
            ),
        ],
        args: &[],
        limit: Limit::None,
        end: "stalled",
        output: "1\n",
    },
    Row {
        classes: &[(
            "Main",
            "class 33 Main java/lang/Object\nmethod 9 main ([Ljava/lang/String;)V\ncode 4 4\ninvokestatic java/lang/Thread.currentThread:()Ljava/lang/Thread;\ninvokevirtual java/lang/Thread.join:()V\nreturn\nend\n",
        )],
        args: &[],
        limit: Limit::None,
        end: "stalled",
        output: "",
    },
    Row {
        classes: &[
            (
                "Main",
                "class 33 Main java/lang/Object\nmethod 9 main ([Ljava/lang/String;)V\ncode 4 4\nnew T\ndup\ninvokespecial java/lang/Thread.<init>:()V\nastore_1\naload_1\ninvokevirtual java/lang/Thread.start:()V\naload_1\ninvokevirtual java/lang/Thread.join:()V\niconst_1\ninvokestatic mvm/Sys.println:(I)V\nreturn\nend\n",
            ),
            (
                "T",
                "class 33 T java/lang/Thread\nmethod 1 run ()V\ncode 4 4\naconst_null\nathrow\nend\n",
            ),
        ],
        args: &[],
        limit: Limit::None,
        end: "exit 0\nuncaught 1 java/lang/NullPointerException",
        output: "1\n",
    },
    Row {
        classes: &[
            (
                "Main",
                "class 33 Main java/lang/Object\nmethod 9 main ([Ljava/lang/String;)V\ncode 4 4\nnew T\ndup\ninvokespecial java/lang/Thread.<init>:()V\nastore_1\naload_1\ninvokevirtual java/lang/Thread.start:()V\naload_1\ninvokevirtual java/lang/Thread.join:()V\niconst_1\niconst_0\nidiv\npop\nreturn\nend\n",
            ),
            (
                "T",
                "class 33 T java/lang/Thread\nmethod 1 run ()V\ncode 4 4\naconst_null\nathrow\nend\n",
            ),
        ],
        args: &[],
        limit: Limit::None,
        end: "exit 1\nuncaught 1 java/lang/NullPointerException\nuncaught 0 java/lang/ArithmeticException",
        output: "",
    },
    Row {
        classes: &[
            (
                "Main",
                "class 33 Main java/lang/Object\nmethod 9 main ([Ljava/lang/String;)V\ncode 4 4\nnew T\ndup\ninvokespecial java/lang/Thread.<init>:()V\nastore_1\naload_1\ninvokevirtual java/lang/Thread.start:()V\naconst_null\nathrow\nend\n",
            ),
            (
                "T",
                "class 33 T java/lang/Thread\nmethod 1 run ()V\ncode 4 4\nnop\nnop\nnop\nnop\nnop\nnop\nnop\nnop\niconst_1\ninvokestatic mvm/Sys.println:(I)V\nreturn\nend\n",
            ),
        ],
        args: &[],
        limit: Limit::None,
        end: "exit 1\nuncaught 0 java/lang/NullPointerException",
        output: "1\n",
    },
    Row {
        classes: &[
            (
                "Main",
                "class 33 Main java/lang/Object\nmethod 41 fail ()V\ncode 1 0\naconst_null\nathrow\nend\nmethod 41 in ()V\ncode 1 0\niconst_1\ninvokestatic mvm/Sys.println:(I)V\nreturn\nend\nmethod 9 main ([Ljava/lang/String;)V\ncode 4 4\nnew T\ndup\ninvokespecial java/lang/Thread.<init>:()V\nastore_1\naload_1\ninvokevirtual java/lang/Thread.start:()V\ninvokestatic Main.fail:()V\nreturn\nend\n",
            ),
            (
                "T",
                "class 33 T java/lang/Thread\nmethod 1 run ()V\ncode 4 4\nnop\nnop\nnop\nnop\nnop\nnop\ninvokestatic Main.in:()V\nreturn\nend\n",
            ),
        ],
        args: &[],
        limit: Limit::None,
        end: "exit 1\nuncaught 0 java/lang/NullPointerException",
        output: "1\n",
    },
    Row {
        classes: &[
            (
                "Main",
                "class 33 Main java/lang/Object\nmethod 9 main ([Ljava/lang/String;)V\ncode 4 4\nnew T\ndup\ninvokespecial java/lang/Thread.<init>:()V\nastore_1\naload_1\ninvokevirtual java/lang/Thread.start:()V\naload_1\ninvokevirtual java/lang/Thread.join:()V\nldc Main\nmonitorenter\niconst_2\ninvokestatic mvm/Sys.println:(I)V\nreturn\nend\n",
            ),
            (
                "T",
                "class 33 T java/lang/Thread\nmethod 1 run ()V\ncode 4 4\nldc Main\nmonitorenter\niconst_1\ninvokestatic mvm/Sys.println:(I)V\nreturn\nend\n",
            ),
        ],
        args: &[],
        limit: Limit::None,
        end: "stalled",
        output: "1\n",
    },
    Row {
        classes: &[
            (
                "Main",
                "class 33 Main java/lang/Object\nmethod 9 main ([Ljava/lang/String;)V\ncode 4 4\nnew T\ndup\ninvokespecial java/lang/Thread.<init>:()V\nastore_1\naload_1\ninvokevirtual java/lang/Thread.start:()V\nloop:\ngoto loop\nend\n",
            ),
            (
                "T",
                "class 33 T java/lang/Thread\nmethod 1 run ()V\ncode 4 4\niconst_1\ninvokestatic mvm/Sys.println:(I)V\niconst_3\ninvokestatic java/lang/System.exit:(I)V\niconst_2\ninvokestatic mvm/Sys.println:(I)V\nreturn\nend\n",
            ),
        ],
        args: &[],
        limit: Limit::None,
        end: "exit 3",
        output: "1\n",
    },
];

#[test]
fn leaves_of_threads(rt: HostRuntime) -> Result<(), Fail> {
    assert_eq!(rt; wrong(rt.alloc(), &THREADED)?.as_str(), "");
    Ok(())
}
