// Programs at their limits, and what a run of each leaves.
use crate::program_rows::{Limit, Row, wrong};
use std::test::Fail;

// Limits, each at its number and one beyond (2.5, 2.11.1; Java Language Specification, SE 8, 12.5, 15.12.4.5).
const LIMITED: [Row; 31] = [
    Row {
        classes: &[(
            "Main",
            "class 33 Main java/lang/Object\nmethod 9 main ([Ljava/lang/String;)V\ncode 2 2\niconst_0\nistore_1\nloop:\niload_1\nbipush 10\nif_icmpge done\niload_1\ninvokestatic mvm/Sys.println:(I)V\niinc 1 1\ngoto loop\ndone:\nreturn\nend\n",
        )],
        args: &[],
        limit: Limit::Steps(1),
        end: "limit steps",
        output: "",
    },
    Row {
        classes: &[(
            "Main",
            "class 33 Main java/lang/Object\nmethod 9 main ([Ljava/lang/String;)V\ncode 2 2\niconst_0\nistore_1\nloop:\niload_1\nbipush 10\nif_icmpge done\niload_1\ninvokestatic mvm/Sys.println:(I)V\niinc 1 1\ngoto loop\ndone:\nreturn\nend\n",
        )],
        args: &[],
        limit: Limit::Steps(78),
        end: "limit steps",
        output: "0\n1\n2\n3\n4\n5\n6\n7\n8\n9\n",
    },
    Row {
        classes: &[(
            "Main",
            "class 33 Main java/lang/Object\nmethod 9 main ([Ljava/lang/String;)V\ncode 2 2\niconst_0\nistore_1\nloop:\niload_1\nbipush 10\nif_icmpge done\niload_1\ninvokestatic mvm/Sys.println:(I)V\niinc 1 1\ngoto loop\ndone:\nreturn\nend\n",
        )],
        args: &[],
        limit: Limit::Steps(79),
        end: "exit 0",
        output: "0\n1\n2\n3\n4\n5\n6\n7\n8\n9\n",
    },
    Row {
        classes: &[(
            "Main",
            "class 33 Main java/lang/Object\nmethod 9 main ([Ljava/lang/String;)V\ncode 2 2\niconst_0\nistore_1\nloop:\niload_1\nbipush 10\nif_icmpge done\niload_1\ninvokestatic mvm/Sys.println:(I)V\niinc 1 1\ngoto loop\ndone:\nreturn\nend\n",
        )],
        args: &[],
        limit: Limit::Output(19),
        end: "limit output",
        output: "0\n1\n2\n3\n4\n5\n6\n7\n8\n",
    },
    Row {
        classes: &[(
            "Main",
            "class 33 Main java/lang/Object\nmethod 9 main ([Ljava/lang/String;)V\ncode 2 2\niconst_0\nistore_1\nloop:\niload_1\nbipush 10\nif_icmpge done\niload_1\ninvokestatic mvm/Sys.println:(I)V\niinc 1 1\ngoto loop\ndone:\nreturn\nend\n",
        )],
        args: &[],
        limit: Limit::Output(20),
        end: "exit 0",
        output: "0\n1\n2\n3\n4\n5\n6\n7\n8\n9\n",
    },
    Row {
        classes: &[(
            "Main",
            "class 33 Main java/lang/Object\nmethod 9 main ([Ljava/lang/String;)V\ncode 2 2\niconst_0\nistore_1\nloop:\niload_1\nbipush 10\nif_icmpge done\niload_1\ninvokestatic mvm/Sys.println:(I)V\niinc 1 1\ngoto loop\ndone:\nreturn\nend\n",
        )],
        args: &[],
        limit: Limit::Output(1),
        end: "limit output",
        output: "",
    },
    Row {
        classes: &[(
            "Main",
            "class 33 Main java/lang/Object\nmethod 9 main ([Ljava/lang/String;)V\ncode 2 2\niconst_0\nistore_1\nloop:\niload_1\nbipush 10\nif_icmpge done\niload_1\ninvokestatic mvm/Sys.println:(I)V\niinc 1 1\ngoto loop\ndone:\nreturn\nend\n",
        )],
        args: &[],
        limit: Limit::Heap(0),
        end: "exit 1\nuncaught 0 java/lang/OutOfMemoryError",
        output: "",
    },
    Row {
        classes: &[(
            "Main",
            "class 33 Main java/lang/Object\nmethod 9 main ([Ljava/lang/String;)V\ncode 2 2\niconst_0\nistore_1\nloop:\niload_1\nbipush 10\nif_icmpge done\niload_1\ninvokestatic mvm/Sys.println:(I)V\niinc 1 1\ngoto loop\ndone:\nreturn\nend\n",
        )],
        args: &[],
        limit: Limit::Heap(1),
        end: "exit 1\nuncaught 0 java/lang/OutOfMemoryError",
        output: "",
    },
    Row {
        classes: &[(
            "Main",
            "class 33 Main java/lang/Object\nmethod 9 main ([Ljava/lang/String;)V\ncode 2 2\niconst_0\nistore_1\nloop:\niload_1\nbipush 10\nif_icmpge done\niload_1\ninvokestatic mvm/Sys.println:(I)V\niinc 1 1\ngoto loop\ndone:\nreturn\nend\n",
        )],
        args: &[],
        limit: Limit::Heap(2),
        end: "exit 0",
        output: "0\n1\n2\n3\n4\n5\n6\n7\n8\n9\n",
    },
    Row {
        classes: &[(
            "Main",
            "class 33 Main java/lang/Object\nmethod 9 main ([Ljava/lang/String;)V\ncode 2 2\niconst_0\nistore_1\nloop:\niload_1\nbipush 10\nif_icmpge done\niload_1\ninvokestatic mvm/Sys.println:(I)V\niinc 1 1\ngoto loop\ndone:\nreturn\nend\n",
        )],
        args: &[],
        limit: Limit::Frames(1),
        end: "exit 1\nuncaught 0 java/lang/StackOverflowError",
        output: "",
    },
    Row {
        classes: &[(
            "Main",
            "class 33 Main java/lang/Object\nmethod 9 main ([Ljava/lang/String;)V\ncode 2 2\niconst_0\nistore_1\nloop:\niload_1\nbipush 10\nif_icmpge done\niload_1\ninvokestatic mvm/Sys.println:(I)V\niinc 1 1\ngoto loop\ndone:\nreturn\nend\n",
        )],
        args: &[],
        limit: Limit::Frames(2),
        end: "exit 0",
        output: "0\n1\n2\n3\n4\n5\n6\n7\n8\n9\n",
    },
    Row {
        classes: &[(
            "Main",
            "class 33 Main java/lang/Object\nmethod 9 b ()V\ncode 1 0\niconst_2\ninvokestatic mvm/Sys.println:(I)V\nreturn\nend\nmethod 9 a ()V\ncode 1 0\niconst_1\ninvokestatic mvm/Sys.println:(I)V\ninvokestatic Main.b:()V\nreturn\nend\nmethod 9 main ([Ljava/lang/String;)V\ncode 0 1\ninvokestatic Main.a:()V\nreturn\nend\n",
        )],
        args: &[],
        limit: Limit::Frames(2),
        end: "exit 1\nuncaught 0 java/lang/StackOverflowError",
        output: "1\n",
    },
    Row {
        classes: &[(
            "Main",
            "class 33 Main java/lang/Object\nmethod 9 b ()V\ncode 1 0\niconst_2\ninvokestatic mvm/Sys.println:(I)V\nreturn\nend\nmethod 9 a ()V\ncode 1 0\niconst_1\ninvokestatic mvm/Sys.println:(I)V\ninvokestatic Main.b:()V\nreturn\nend\nmethod 9 main ([Ljava/lang/String;)V\ncode 0 1\ninvokestatic Main.a:()V\nreturn\nend\n",
        )],
        args: &[],
        limit: Limit::Frames(3),
        end: "exit 0",
        output: "1\n2\n",
    },
    Row {
        classes: &[(
            "Main",
            "class 33 Main java/lang/Object\nmethod 9 deep ()V\ncode 0 8190\nreturn\nend\nmethod 9 main ([Ljava/lang/String;)V\ncode 1 1\nfrom:\ninvokestatic Main.deep:()V\niconst_1\ninvokestatic mvm/Sys.println:(I)V\nreturn\nto:\npop\niconst_2\ninvokestatic mvm/Sys.println:(I)V\nreturn\ncatch from to to java/lang/StackOverflowError\nend\n",
        )],
        args: &[],
        limit: Limit::None,
        end: "exit 0",
        output: "1\n",
    },
    Row {
        classes: &[(
            "Main",
            "class 33 Main java/lang/Object\nmethod 9 deep ()V\ncode 0 8191\nreturn\nend\nmethod 9 main ([Ljava/lang/String;)V\ncode 1 1\nfrom:\ninvokestatic Main.deep:()V\niconst_1\ninvokestatic mvm/Sys.println:(I)V\nreturn\nto:\npop\niconst_2\ninvokestatic mvm/Sys.println:(I)V\nreturn\ncatch from to to java/lang/StackOverflowError\nend\n",
        )],
        args: &[],
        limit: Limit::None,
        end: "exit 0",
        output: "2\n",
    },
    Row {
        classes: &[
            (
                "Main",
                "class 33 Main java/lang/Object\nmethod 9 down ()V\ncode 0 0\ninvokestatic Main.down:()V\nreturn\nend\nmethod 9 main ([Ljava/lang/String;)V\ncode 4 4\nfrom:\ninvokestatic Main.down:()V\nreturn\nto:\npop\nldc \"so\"\ninvokestatic Out.say:(Ljava/lang/String;)V\nreturn\ncatch from to to java/lang/StackOverflowError\nend\n",
            ),
            (
                "Out",
                "class 33 Out java/lang/Object\nmethod 9 say (Ljava/lang/String;)V\ncode 2 1\ngetstatic java/lang/System.out:Ljava/io/PrintStream;\naload_0\ninvokevirtual java/io/PrintStream.println:(Ljava/lang/String;)V\nreturn\nend\n",
            ),
        ],
        args: &[],
        limit: Limit::None,
        end: "exit 0",
        output: "so\n",
    },
    Row {
        classes: &[
            (
                "Main",
                "class 33 Main java/lang/Object\nmethod 9 main ([Ljava/lang/String;)V\ncode 4 4\nfrom:\nsipush 1000\nnewarray 10\npop\nreturn\nto:\npop\nldc \"oom\"\ninvokestatic Out.say:(Ljava/lang/String;)V\nreturn\ncatch from to to java/lang/OutOfMemoryError\nend\n",
            ),
            (
                "Out",
                "class 33 Out java/lang/Object\nmethod 9 say (Ljava/lang/String;)V\ncode 2 1\ngetstatic java/lang/System.out:Ljava/io/PrintStream;\naload_0\ninvokevirtual java/io/PrintStream.println:(Ljava/lang/String;)V\nreturn\nend\n",
            ),
        ],
        args: &[],
        limit: Limit::Heap(100),
        end: "exit 0",
        output: "oom\n",
    },
    Row {
        classes: &[(
            "Main",
            "class 33 Main java/lang/Object\nmethod 9 main ([Ljava/lang/String;)V\ncode 4 4\nfrom:\nsipush 2\nnewarray 10\npop\nreturn\nto:\npop\niconst_1\ninvokestatic mvm/Sys.println:(I)V\nreturn\ncatch from to to java/lang/OutOfMemoryError\nend\n",
        )],
        args: &[],
        limit: Limit::Heap(5),
        end: "exit 0",
        output: "",
    },
    Row {
        classes: &[(
            "Main",
            "class 33 Main java/lang/Object\nmethod 9 main ([Ljava/lang/String;)V\ncode 4 4\nfrom:\nsipush 2\nnewarray 10\npop\nreturn\nto:\npop\niconst_1\ninvokestatic mvm/Sys.println:(I)V\nreturn\ncatch from to to java/lang/OutOfMemoryError\nend\n",
        )],
        args: &[],
        limit: Limit::Heap(4),
        end: "exit 0",
        output: "1\n",
    },
    Row {
        classes: &[(
            "Main",
            "class 33 Main java/lang/Object\nmethod 9 main ([Ljava/lang/String;)V\ncode 4 4\nfrom:\nsipush 3\nnewarray 10\npop\nreturn\nto:\npop\niconst_1\ninvokestatic mvm/Sys.println:(I)V\nreturn\ncatch from to to java/lang/OutOfMemoryError\nend\n",
        )],
        args: &[],
        limit: Limit::Heap(5),
        end: "exit 0",
        output: "1\n",
    },
    Row {
        classes: &[(
            "Main",
            "class 33 Main java/lang/Object\nmethod 9 main ([Ljava/lang/String;)V\ncode 4 4\niconst_1\niconst_0\nidiv\npop\nreturn\nend\n",
        )],
        args: &[],
        limit: Limit::Heap(2),
        end: "exit 1\nuncaught 0 java/lang/OutOfMemoryError",
        output: "",
    },
    Row {
        classes: &[(
            "Main",
            "class 33 Main java/lang/Object\nmethod 9 main ([Ljava/lang/String;)V\ncode 4 4\niconst_1\niconst_0\nidiv\npop\nreturn\nend\n",
        )],
        args: &[],
        limit: Limit::Heap(5),
        end: "exit 1\nuncaught 0 java/lang/OutOfMemoryError",
        output: "",
    },
    Row {
        classes: &[(
            "Main",
            "class 33 Main java/lang/Object\nmethod 9 main ([Ljava/lang/String;)V\ncode 4 4\niconst_1\niconst_0\nidiv\npop\nreturn\nend\n",
        )],
        args: &[],
        limit: Limit::Heap(6),
        end: "exit 1\nuncaught 0 java/lang/ArithmeticException",
        output: "",
    },
    Row {
        classes: &[(
            "Main",
            "class 33 Main java/lang/Object\nmethod 8 <clinit> ()V\ncode 4 4\niconst_1\niconst_0\nidiv\npop\nreturn\nend\nmethod 9 main ([Ljava/lang/String;)V\ncode 4 4\nreturn\nend\n",
        )],
        args: &[],
        limit: Limit::Heap(8),
        end: "exit 1\nuncaught 0 java/lang/ExceptionInInitializerError",
        output: "",
    },
    Row {
        classes: &[(
            "Main",
            "class 33 Main java/lang/Object\nmethod 8 <clinit> ()V\ncode 4 4\niconst_1\niconst_0\nidiv\npop\nreturn\nend\nmethod 9 main ([Ljava/lang/String;)V\ncode 4 4\nreturn\nend\n",
        )],
        args: &[],
        limit: Limit::Heap(7),
        end: "exit 1\nuncaught 0 java/lang/OutOfMemoryError",
        output: "",
    },
    Row {
        classes: &[
            (
                "Main",
                "class 33 Main java/lang/Object\nmethod 9 use ()V\ncode 4 4\nfrom:\ninvokestatic Bad.touch:()V\nldc \"ok\"\ninvokestatic Out.say:(Ljava/lang/String;)V\nreturn\nto:\npop\nldc \"N\"\ninvokestatic Out.say:(Ljava/lang/String;)V\nreturn\nerror:\npop\nldc \"T\"\ninvokestatic Out.say:(Ljava/lang/String;)V\nreturn\ncatch from to to java/lang/NoClassDefFoundError\ncatch from to error java/lang/OutOfMemoryError\nend\nmethod 9 main ([Ljava/lang/String;)V\ncode 4 4\ninvokestatic Main.use:()V\ninvokestatic Main.use:()V\nreturn\nend\n",
            ),
            (
                "Bad",
                "class 33 Bad java/lang/Object\nfield 9 a [I\nmethod 8 <clinit> ()V\ncode 4 4\nsipush 1000\nnewarray 10\nputstatic Bad.a:[I\nreturn\nend\nmethod 9 touch ()V\ncode 0 0\nreturn\nend\n",
            ),
            (
                "Out",
                "class 33 Out java/lang/Object\nmethod 9 say (Ljava/lang/String;)V\ncode 2 1\ngetstatic java/lang/System.out:Ljava/io/PrintStream;\naload_0\ninvokevirtual java/io/PrintStream.println:(Ljava/lang/String;)V\nreturn\nend\n",
            ),
        ],
        args: &[],
        limit: Limit::Heap(100),
        end: "exit 0",
        output: "T\nN\n",
    },
    Row {
        classes: &[
            (
                "Main",
                "class 33 Main java/lang/Object\nmethod 9 main ([Ljava/lang/String;)V\ncode 4 4\nnew T\ndup\ninvokespecial java/lang/Thread.<init>:()V\ninvokevirtual java/lang/Thread.start:()V\nnew T\ndup\ninvokespecial java/lang/Thread.<init>:()V\ninvokevirtual java/lang/Thread.start:()V\nnew T\ndup\ninvokespecial java/lang/Thread.<init>:()V\ninvokevirtual java/lang/Thread.start:()V\niconst_1\ninvokestatic mvm/Sys.println:(I)V\nreturn\nend\n",
            ),
            (
                "T",
                "class 33 T java/lang/Thread\nmethod 1 run ()V\ncode 0 1\nreturn\nend\n",
            ),
        ],
        args: &[],
        limit: Limit::None,
        end: "exit 0",
        output: "1\n",
    },
    Row {
        classes: &[
            (
                "Main",
                "class 33 Main java/lang/Object\nmethod 9 main ([Ljava/lang/String;)V\ncode 4 4\nnew T\ndup\ninvokespecial java/lang/Thread.<init>:()V\ninvokevirtual java/lang/Thread.start:()V\nnew T\ndup\ninvokespecial java/lang/Thread.<init>:()V\ninvokevirtual java/lang/Thread.start:()V\nnew T\ndup\ninvokespecial java/lang/Thread.<init>:()V\ninvokevirtual java/lang/Thread.start:()V\nnew T\ndup\ninvokespecial java/lang/Thread.<init>:()V\ninvokevirtual java/lang/Thread.start:()V\niconst_1\ninvokestatic mvm/Sys.println:(I)V\nreturn\nend\n",
            ),
            (
                "T",
                "class 33 T java/lang/Thread\nmethod 1 run ()V\ncode 0 1\nreturn\nend\n",
            ),
        ],
        args: &[],
        limit: Limit::None,
        end: "limit threads",
        output: "",
    },
    Row {
        classes: &[
            (
                "Main",
                "class 33 Main java/lang/Object\nmethod 9 main ([Ljava/lang/String;)V\ncode 4 4\nnew T\ndup\ninvokespecial java/lang/Thread.<init>:()V\ninvokevirtual java/lang/Thread.start:()V\nnew T\ndup\ninvokespecial java/lang/Thread.<init>:()V\ninvokevirtual java/lang/Thread.start:()V\nnew T\ndup\ninvokespecial java/lang/Thread.<init>:()V\ninvokevirtual java/lang/Thread.start:()V\nnew T\ndup\ninvokespecial java/lang/Thread.<init>:()V\ninvokevirtual java/lang/Thread.start:()V\niconst_1\ninvokestatic mvm/Sys.println:(I)V\nreturn\nend\n",
            ),
            (
                "T",
                "class 33 T java/lang/Thread\nmethod 1 run ()V\ncode 0 1\nreturn\nend\n",
            ),
        ],
        args: &[],
        limit: Limit::Threads(5),
        end: "exit 0",
        output: "1\n",
    },
    Row {
        classes: &[
            (
                "Main",
                "class 33 Main java/lang/Object\nmethod 9 main ([Ljava/lang/String;)V\ncode 4 4\nnew T\ndup\ninvokespecial java/lang/Thread.<init>:()V\ninvokevirtual java/lang/Thread.start:()V\niconst_1\ninvokestatic mvm/Sys.println:(I)V\nreturn\nend\n",
            ),
            (
                "T",
                "class 33 T java/lang/Thread\nmethod 1 run ()V\ncode 0 1\nreturn\nend\n",
            ),
        ],
        args: &[],
        limit: Limit::Threads(1),
        end: "limit threads",
        output: "",
    },
    Row {
        classes: &[
            (
                "Main",
                "class 33 Main java/lang/Object\nmethod 9 main ([Ljava/lang/String;)V\ncode 4 4\nnew T\ndup\ninvokespecial java/lang/Thread.<init>:()V\ninvokevirtual java/lang/Thread.start:()V\niconst_1\ninvokestatic mvm/Sys.println:(I)V\nreturn\nend\n",
            ),
            (
                "T",
                "class 33 T java/lang/Thread\nmethod 1 run ()V\ncode 0 1\nreturn\nend\n",
            ),
        ],
        args: &[],
        limit: Limit::Threads(2),
        end: "exit 0",
        output: "1\n",
    },
];

#[test]
fn leaves_at_limits(rt: HostRuntime) -> Result<(), Fail> {
    assert_eq!(rt; wrong(rt.alloc(), &LIMITED)?.as_str(), "");
    Ok(())
}
