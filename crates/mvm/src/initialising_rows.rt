// Programs whose classes are initialised, loaded, linked and resolved, and what a run of each leaves.
use crate::program_rows::{Limit, Row, wrong};
use std::test::Fail;

// Initialisation (5.5).
const INITIALISING: [Row; 24] = [
    Row {
        classes: &[(
            "Boot",
            "class 33 Boot java/lang/Object\nfield 25 K I constant 7\nmethod 8 <clinit> ()V\ncode 4 4\ngetstatic Boot.K:I\ninvokestatic mvm/Sys.println:(I)V\nreturn\nend\nmethod 9 main ([Ljava/lang/String;)V\ncode 4 4\niconst_1\ninvokestatic mvm/Sys.println:(I)V\nreturn\nend\n",
        )],
        args: &[],
        limit: Limit::None,
        end: "exit 0",
        output: "7\n1\n",
    },
    Row {
        classes: &[(
            "Main",
            "class 33 Main java/lang/Object\nfield 9 x I\nmethod 8 <clinit> ()V\ncode 4 4\niconst_1\niconst_0\nidiv\nputstatic Main.x:I\nreturn\nend\nmethod 9 main ([Ljava/lang/String;)V\ncode 4 4\niconst_1\ninvokestatic mvm/Sys.println:(I)V\nreturn\nend\n",
        )],
        args: &[],
        limit: Limit::None,
        end: "exit 1\nuncaught 0 java/lang/ExceptionInInitializerError",
        output: "",
    },
    Row {
        classes: &[
            (
                "Main",
                "class 33 Main java/lang/Object\nmethod 9 use ()V\ncode 4 4\nfrom:\ninvokestatic Bad.touch:()V\nldc \"ok\"\ninvokestatic Out.say:(Ljava/lang/String;)V\nreturn\nto:\npop\nldc \"E\"\ninvokestatic Out.say:(Ljava/lang/String;)V\nreturn\nnone:\npop\nldc \"N\"\ninvokestatic Out.say:(Ljava/lang/String;)V\nreturn\ncatch from to to java/lang/ExceptionInInitializerError\ncatch from to none java/lang/NoClassDefFoundError\nend\nmethod 9 main ([Ljava/lang/String;)V\ncode 4 4\naload_0\niconst_0\naaload\ninvokestatic java/lang/Integer.parseInt:(Ljava/lang/String;)I\nputstatic Flag.d:I\ninvokestatic Main.use:()V\ninvokestatic Main.use:()V\nreturn\nend\n",
            ),
            ("Flag", "class 33 Flag java/lang/Object\nfield 9 d I\n"),
            (
                "Bad",
                "class 33 Bad java/lang/Object\nmethod 8 <clinit> ()V\ncode 4 4\niconst_1\ngetstatic Flag.d:I\nidiv\npop\nreturn\nend\nmethod 9 touch ()V\ncode 0 0\nreturn\nend\n",
            ),
            (
                "Out",
                "class 33 Out java/lang/Object\nmethod 9 say (Ljava/lang/String;)V\ncode 2 1\ngetstatic java/lang/System.out:Ljava/io/PrintStream;\naload_0\ninvokevirtual java/io/PrintStream.println:(Ljava/lang/String;)V\nreturn\nend\n",
            ),
        ],
        args: &["0"],
        limit: Limit::None,
        end: "exit 0",
        output: "E\nN\n",
    },
    Row {
        classes: &[
            (
                "Main",
                "class 33 Main java/lang/Object\nmethod 9 use ()V\ncode 4 4\nfrom:\ninvokestatic Bad.touch:()V\nldc \"ok\"\ninvokestatic Out.say:(Ljava/lang/String;)V\nreturn\nto:\npop\nldc \"E\"\ninvokestatic Out.say:(Ljava/lang/String;)V\nreturn\nnone:\npop\nldc \"N\"\ninvokestatic Out.say:(Ljava/lang/String;)V\nreturn\ncatch from to to java/lang/ExceptionInInitializerError\ncatch from to none java/lang/NoClassDefFoundError\nend\nmethod 9 main ([Ljava/lang/String;)V\ncode 4 4\naload_0\niconst_0\naaload\ninvokestatic java/lang/Integer.parseInt:(Ljava/lang/String;)I\nputstatic Flag.d:I\ninvokestatic Main.use:()V\ninvokestatic Main.use:()V\nreturn\nend\n",
            ),
            ("Flag", "class 33 Flag java/lang/Object\nfield 9 d I\n"),
            (
                "Bad",
                "class 33 Bad java/lang/Object\nmethod 8 <clinit> ()V\ncode 4 4\niconst_1\ngetstatic Flag.d:I\nidiv\npop\nreturn\nend\nmethod 9 touch ()V\ncode 0 0\nreturn\nend\n",
            ),
            (
                "Out",
                "class 33 Out java/lang/Object\nmethod 9 say (Ljava/lang/String;)V\ncode 2 1\ngetstatic java/lang/System.out:Ljava/io/PrintStream;\naload_0\ninvokevirtual java/io/PrintStream.println:(Ljava/lang/String;)V\nreturn\nend\n",
            ),
        ],
        args: &["1"],
        limit: Limit::None,
        end: "exit 0",
        output: "ok\nok\n",
    },
    Row {
        classes: &[
            (
                "Main",
                "class 33 Main java/lang/Object\nmethod 9 main ([Ljava/lang/String;)V\ncode 4 4\nnew C\npop\nreturn\nend\n",
            ),
            (
                "I",
                "class 1537 I java/lang/Object\nmethod 1 hi ()V\ncode 0 1\nreturn\nend\nmethod 8 <clinit> ()V\ncode 4 4\nldc \"I\"\ninvokestatic Out.say:(Ljava/lang/String;)V\nreturn\nend\n",
            ),
            (
                "C",
                "class 33 C java/lang/Object\nimplements I\nmethod 8 <clinit> ()V\ncode 4 4\nldc \"C\"\ninvokestatic Out.say:(Ljava/lang/String;)V\nreturn\nend\n",
            ),
            (
                "Out",
                "class 33 Out java/lang/Object\nmethod 9 say (Ljava/lang/String;)V\ncode 2 1\ngetstatic java/lang/System.out:Ljava/io/PrintStream;\naload_0\ninvokevirtual java/io/PrintStream.println:(Ljava/lang/String;)V\nreturn\nend\n",
            ),
        ],
        args: &[],
        limit: Limit::None,
        end: "exit 0",
        output: "I\nC\n",
    },
    Row {
        classes: &[
            (
                "Main",
                "class 33 Main java/lang/Object\nmethod 9 main ([Ljava/lang/String;)V\ncode 4 4\nnew C\npop\nreturn\nend\n",
            ),
            (
                "I",
                "class 1537 I java/lang/Object\nmethod 8 <clinit> ()V\ncode 4 4\nldc \"I\"\ninvokestatic Out.say:(Ljava/lang/String;)V\nreturn\nend\n",
            ),
            (
                "C",
                "class 33 C java/lang/Object\nimplements I\nmethod 8 <clinit> ()V\ncode 4 4\nldc \"C\"\ninvokestatic Out.say:(Ljava/lang/String;)V\nreturn\nend\n",
            ),
            (
                "Out",
                "class 33 Out java/lang/Object\nmethod 9 say (Ljava/lang/String;)V\ncode 2 1\ngetstatic java/lang/System.out:Ljava/io/PrintStream;\naload_0\ninvokevirtual java/io/PrintStream.println:(Ljava/lang/String;)V\nreturn\nend\n",
            ),
        ],
        args: &[],
        limit: Limit::None,
        end: "exit 0",
        output: "C\n",
    },
    Row {
        classes: &[
            (
                "Main",
                "class 33 Main java/lang/Object\nmethod 9 use ()V\ncode 4 4\nfrom:\ninvokestatic Bad.touch:()V\nldc \"ok\"\ninvokestatic Out.say:(Ljava/lang/String;)V\nreturn\nto:\npop\nldc \"N\"\ninvokestatic Out.say:(Ljava/lang/String;)V\nreturn\nerror:\npop\nldc \"T\"\ninvokestatic Out.say:(Ljava/lang/String;)V\nreturn\ncatch from to to java/lang/NoClassDefFoundError\ncatch from to error java/lang/IllegalStateException\nend\nmethod 9 main ([Ljava/lang/String;)V\ncode 4 4\ninvokestatic Main.use:()V\ninvokestatic Main.use:()V\nreturn\nend\n",
            ),
            (
                "Bad",
                "class 33 Bad java/lang/Object\nmethod 8 <clinit> ()V\ncode 4 4\nnew java/lang/Error\ndup\ninvokespecial java/lang/Error.<init>:()V\nathrow\nend\nmethod 9 touch ()V\ncode 0 0\nreturn\nend\n",
            ),
            (
                "Out",
                "class 33 Out java/lang/Object\nmethod 9 say (Ljava/lang/String;)V\ncode 2 1\ngetstatic java/lang/System.out:Ljava/io/PrintStream;\naload_0\ninvokevirtual java/io/PrintStream.println:(Ljava/lang/String;)V\nreturn\nend\n",
            ),
        ],
        args: &[],
        limit: Limit::None,
        end: "exit 1\nuncaught 0 java/lang/Error",
        output: "",
    },
    Row {
        classes: &[
            (
                "Main",
                "class 33 Main java/lang/Object\nmethod 9 use ()V\ncode 4 4\nfrom:\ninvokestatic Bad.touch:()V\nldc \"ok\"\ninvokestatic Out.say:(Ljava/lang/String;)V\nreturn\nto:\npop\nldc \"N\"\ninvokestatic Out.say:(Ljava/lang/String;)V\nreturn\nerror:\npop\nldc \"T\"\ninvokestatic Out.say:(Ljava/lang/String;)V\nreturn\ncatch from to to java/lang/NoClassDefFoundError\ncatch from to error java/lang/Error\nend\nmethod 9 main ([Ljava/lang/String;)V\ncode 4 4\ninvokestatic Main.use:()V\ninvokestatic Main.use:()V\nreturn\nend\n",
            ),
            (
                "Bad",
                "class 33 Bad java/lang/Object\nmethod 8 <clinit> ()V\ncode 4 4\nnew java/lang/Error\ndup\ninvokespecial java/lang/Error.<init>:()V\nathrow\nend\nmethod 9 touch ()V\ncode 0 0\nreturn\nend\n",
            ),
            (
                "Out",
                "class 33 Out java/lang/Object\nmethod 9 say (Ljava/lang/String;)V\ncode 2 1\ngetstatic java/lang/System.out:Ljava/io/PrintStream;\naload_0\ninvokevirtual java/io/PrintStream.println:(Ljava/lang/String;)V\nreturn\nend\n",
            ),
        ],
        args: &[],
        limit: Limit::None,
        end: "exit 0",
        output: "T\nN\n",
    },
    Row {
        classes: &[
            (
                "Main",
                "class 33 Main java/lang/Object\nmethod 9 use ()V\ncode 4 4\nfrom:\ninvokestatic Bad.touch:()V\nldc \"ok\"\ninvokestatic Out.say:(Ljava/lang/String;)V\nreturn\nto:\npop\nldc \"N\"\ninvokestatic Out.say:(Ljava/lang/String;)V\nreturn\nerror:\npop\nldc \"T\"\ninvokestatic Out.say:(Ljava/lang/String;)V\nreturn\ncatch from to to java/lang/NoClassDefFoundError\ncatch from to error java/lang/VerifyError\nend\nmethod 9 main ([Ljava/lang/String;)V\ncode 4 4\ninvokestatic Main.use:()V\ninvokestatic Main.use:()V\nreturn\nend\n",
            ),
            (
                "Bad",
                "class 33 Bad java/lang/Object\nmethod 8 <clinit> ()V\ncode 4 4\nlconst_0\npop\nreturn\nend\nmethod 9 touch ()V\ncode 0 0\nreturn\nend\n",
            ),
            (
                "Out",
                "class 33 Out java/lang/Object\nmethod 9 say (Ljava/lang/String;)V\ncode 2 1\ngetstatic java/lang/System.out:Ljava/io/PrintStream;\naload_0\ninvokevirtual java/io/PrintStream.println:(Ljava/lang/String;)V\nreturn\nend\n",
            ),
        ],
        args: &[],
        limit: Limit::None,
        end: "exit 0",
        output: "T\nN\n",
    },
    Row {
        classes: &[
            (
                "Main",
                "class 33 Main java/lang/Object\nmethod 9 main ([Ljava/lang/String;)V\ncode 4 4\nfrom:\ninvokestatic Bad.touch:()V\nreturn\nto:\ninvokevirtual java/lang/Throwable.getCause:()Ljava/lang/Throwable;\ninstanceof java/lang/NullPointerException\ninvokestatic mvm/Sys.println:(I)V\nreturn\ncatch from to to any\nend\n",
            ),
            (
                "Bad",
                "class 33 Bad java/lang/Object\nmethod 8 <clinit> ()V\ncode 4 4\naconst_null\nathrow\nend\nmethod 9 touch ()V\ncode 0 0\nreturn\nend\n",
            ),
        ],
        args: &[],
        limit: Limit::None,
        end: "exit 0",
        output: "1\n",
    },
    Row {
        classes: &[
            (
                "Main",
                "class 33 Main java/lang/Object\nmethod 9 main ([Ljava/lang/String;)V\ncode 4 4\ninvokestatic A.touch:()V\nreturn\nend\n",
            ),
            (
                "A",
                "class 33 A java/lang/Object\nfield 9 x I\nmethod 8 <clinit> ()V\ncode 4 4\ninvokestatic A.touch:()V\nnew A\npop\niconst_2\nputstatic A.x:I\niconst_5\ninvokestatic mvm/Sys.println:(I)V\nreturn\nend\nmethod 9 touch ()V\ncode 1 0\ngetstatic A.x:I\ninvokestatic mvm/Sys.println:(I)V\nreturn\nend\n",
            ),
        ],
        args: &[],
        limit: Limit::None,
        end: "exit 0",
        output: "0\n5\n2\n",
    },
    Row {
        classes: &[
            (
                "Main",
                "class 33 Main java/lang/Object\nmethod 9 main ([Ljava/lang/String;)V\ncode 4 4\ngetstatic A.x:I\ninvokestatic mvm/Sys.println:(I)V\ngetstatic B.y:I\ninvokestatic mvm/Sys.println:(I)V\nreturn\nend\n",
            ),
            (
                "A",
                "class 33 A java/lang/Object\nfield 9 x I\nmethod 8 <clinit> ()V\ncode 4 4\ngetstatic B.y:I\niconst_1\niadd\nputstatic A.x:I\nreturn\nend\n",
            ),
            (
                "B",
                "class 33 B java/lang/Object\nfield 9 y I\nmethod 8 <clinit> ()V\ncode 4 4\ngetstatic A.x:I\niconst_3\niadd\nputstatic B.y:I\nreturn\nend\n",
            ),
        ],
        args: &[],
        limit: Limit::None,
        end: "exit 0",
        output: "4\n3\n",
    },
    Row {
        classes: &[
            (
                "Main",
                "class 33 Main java/lang/Object\nmethod 9 main ([Ljava/lang/String;)V\ncode 4 4\nnew B\npop\nreturn\nend\n",
            ),
            (
                "A",
                "class 33 A java/lang/Object\nmethod 8 <clinit> ()V\ncode 4 4\niconst_1\ninvokestatic mvm/Sys.println:(I)V\nreturn\nend\n",
            ),
            (
                "B",
                "class 33 B A\nmethod 8 <clinit> ()V\ncode 4 4\niconst_2\ninvokestatic mvm/Sys.println:(I)V\nreturn\nend\n",
            ),
        ],
        args: &[],
        limit: Limit::None,
        end: "exit 0",
        output: "1\n2\n",
    },
    Row {
        classes: &[
            (
                "Main",
                "class 33 Main java/lang/Object\nmethod 9 main ([Ljava/lang/String;)V\ncode 4 4\ngetstatic B.x:I\ninvokestatic mvm/Sys.println:(I)V\nreturn\nend\n",
            ),
            (
                "A",
                "class 33 A java/lang/Object\nfield 9 x I\nmethod 8 <clinit> ()V\ncode 4 4\niconst_1\ninvokestatic mvm/Sys.println:(I)V\nreturn\nend\n",
            ),
            (
                "B",
                "class 33 B A\nmethod 8 <clinit> ()V\ncode 4 4\niconst_2\ninvokestatic mvm/Sys.println:(I)V\nreturn\nend\n",
            ),
        ],
        args: &[],
        limit: Limit::None,
        end: "exit 0",
        output: "1\n0\n",
    },
    Row {
        classes: &[
            (
                "Main",
                "class 33 Main java/lang/Object\nmethod 9 main ([Ljava/lang/String;)V\ncode 4 4\niconst_1\nanewarray A\npop\naconst_null\ninstanceof A\npop\nldc A\npop\niconst_5\ninvokestatic mvm/Sys.println:(I)V\nreturn\nend\n",
            ),
            (
                "A",
                "class 33 A java/lang/Object\nmethod 8 <clinit> ()V\ncode 4 4\niconst_1\ninvokestatic mvm/Sys.println:(I)V\nreturn\nend\n",
            ),
        ],
        args: &[],
        limit: Limit::None,
        end: "exit 0",
        output: "5\n",
    },
    Row {
        classes: &[
            (
                "Main",
                "class 33 Main java/lang/Object\nmethod 9 use ()V\ncode 4 4\nfrom:\ninvokestatic Bad.touch:()V\nldc \"ok\"\ninvokestatic Out.say:(Ljava/lang/String;)V\nreturn\nto:\npop\nldc \"N\"\ninvokestatic Out.say:(Ljava/lang/String;)V\nreturn\nerror:\npop\nldc \"T\"\ninvokestatic Out.say:(Ljava/lang/String;)V\nreturn\ncatch from to to java/lang/NoClassDefFoundError\ncatch from to error java/lang/ExceptionInInitializerError\nend\nmethod 9 main ([Ljava/lang/String;)V\ncode 4 4\ninvokestatic Main.use:()V\ninvokestatic Main.use:()V\nfrom:\ninvokestatic A.touch:()V\nreturn\nto:\npop\niconst_3\ninvokestatic mvm/Sys.println:(I)V\nreturn\ncatch from to to java/lang/NoClassDefFoundError\nend\n",
            ),
            (
                "A",
                "class 33 A java/lang/Object\nmethod 8 <clinit> ()V\ncode 4 4\niconst_1\niconst_0\nidiv\npop\nreturn\nend\nmethod 9 touch ()V\ncode 0 0\nreturn\nend\n",
            ),
            (
                "Bad",
                "class 33 Bad A\nmethod 8 <clinit> ()V\ncode 4 4\niconst_2\ninvokestatic mvm/Sys.println:(I)V\nreturn\nend\nmethod 9 touch ()V\ncode 0 0\nreturn\nend\n",
            ),
            (
                "Out",
                "class 33 Out java/lang/Object\nmethod 9 say (Ljava/lang/String;)V\ncode 2 1\ngetstatic java/lang/System.out:Ljava/io/PrintStream;\naload_0\ninvokevirtual java/io/PrintStream.println:(Ljava/lang/String;)V\nreturn\nend\n",
            ),
        ],
        args: &[],
        limit: Limit::None,
        end: "exit 0",
        output: "T\nN\n3\n",
    },
    Row {
        classes: &[
            (
                "Main",
                "class 33 Main java/lang/Object\nmethod 9 main ([Ljava/lang/String;)V\ncode 4 4\ngetstatic A.own:I\nreturn\nend\n",
            ),
            (
                "A",
                "class 33 A java/lang/Object\nfield 1 own I\nmethod 8 <clinit> ()V\ncode 4 4\nbipush 9\ninvokestatic mvm/Sys.println:(I)V\nreturn\nend\n",
            ),
        ],
        args: &[],
        limit: Limit::None,
        end: "exit 1\nuncaught 0 java/lang/IncompatibleClassChangeError",
        output: "",
    },
    Row {
        classes: &[
            (
                "Main",
                "class 33 Main java/lang/Object\nmethod 9 main ([Ljava/lang/String;)V\ncode 4 4\niconst_0\nputstatic A.fixed:I\nreturn\nend\n",
            ),
            (
                "A",
                "class 33 A java/lang/Object\nfield 25 fixed I\nmethod 8 <clinit> ()V\ncode 4 4\nbipush 9\ninvokestatic mvm/Sys.println:(I)V\nreturn\nend\n",
            ),
        ],
        args: &[],
        limit: Limit::None,
        end: "exit 1\nuncaught 0 java/lang/IllegalAccessError",
        output: "",
    },
    Row {
        classes: &[
            (
                "Main",
                "class 33 Main java/lang/Object\nmethod 9 main ([Ljava/lang/String;)V\ncode 4 4\nlconst_0\nputstatic A.x:I\nreturn\nend\n",
            ),
            (
                "A",
                "class 33 A java/lang/Object\nfield 9 x I\nmethod 8 <clinit> ()V\ncode 4 4\nbipush 9\ninvokestatic mvm/Sys.println:(I)V\nreturn\nend\n",
            ),
        ],
        args: &[],
        limit: Limit::None,
        end: "exit 1\nuncaught 0 java/lang/VerifyError",
        output: "9\n",
    },
    Row {
        classes: &[
            (
                "Main",
                "class 33 Main java/lang/Object\nmethod 9 main ([Ljava/lang/String;)V\ncode 4 4\ninvokestatic A.takes:(I)V\nreturn\nend\n",
            ),
            (
                "A",
                "class 33 A java/lang/Object\nmethod 9 takes (I)V\ncode 0 1\nreturn\nend\nmethod 8 <clinit> ()V\ncode 4 4\nbipush 9\ninvokestatic mvm/Sys.println:(I)V\nreturn\nend\n",
            ),
        ],
        args: &[],
        limit: Limit::None,
        end: "exit 1\nuncaught 0 java/lang/VerifyError",
        output: "9\n",
    },
    Row {
        classes: &[
            (
                "Main",
                "class 33 Main java/lang/Object\nmethod 9 main ([Ljava/lang/String;)V\ncode 4 4\ninvokestatic A.moving:()V\nreturn\nend\n",
            ),
            (
                "A",
                "class 33 A java/lang/Object\nmethod 1 moving ()V\ncode 0 1\nreturn\nend\nmethod 8 <clinit> ()V\ncode 4 4\nbipush 9\ninvokestatic mvm/Sys.println:(I)V\nreturn\nend\n",
            ),
        ],
        args: &[],
        limit: Limit::None,
        end: "exit 1\nuncaught 0 java/lang/IncompatibleClassChangeError",
        output: "",
    },
    Row {
        classes: &[
            (
                "Main",
                "class 33 Main java/lang/Object\nmethod 9 main ([Ljava/lang/String;)V\ncode 4 4\nnew A\npop\nreturn\nend\n",
            ),
            (
                "A",
                "class 1057 A java/lang/Object\nmethod 8 <clinit> ()V\ncode 4 4\nbipush 9\ninvokestatic mvm/Sys.println:(I)V\nreturn\nend\n",
            ),
        ],
        args: &[],
        limit: Limit::None,
        end: "exit 1\nuncaught 0 java/lang/InstantiationError",
        output: "",
    },
    Row {
        classes: &[(
            "Main",
            "class 33 Main java/lang/Object\nfield 25 x I\nmethod 8 <clinit> ()V\ncode 4 4\niconst_3\nputstatic Main.x:I\nreturn\nend\nmethod 9 main ([Ljava/lang/String;)V\ncode 4 4\ngetstatic Main.x:I\ninvokestatic mvm/Sys.println:(I)V\nreturn\nend\n",
        )],
        args: &[],
        limit: Limit::None,
        end: "exit 0",
        output: "3\n",
    },
    Row {
        classes: &[(
            "Main",
            "class 33 Main java/lang/Object\nfield 25 x I\nmethod 9 set ()V\ncode 4 4\niconst_3\nputstatic Main.x:I\nreturn\nend\nmethod 8 <clinit> ()V\ncode 4 4\ninvokestatic Main.set:()V\nreturn\nend\nmethod 9 main ([Ljava/lang/String;)V\ncode 4 4\ngetstatic Main.x:I\ninvokestatic mvm/Sys.println:(I)V\nreturn\nend\n",
        )],
        args: &[],
        limit: Limit::None,
        end: "exit 1\nuncaught 0 java/lang/IllegalAccessError",
        output: "",
    },
];

// Loading, linking and resolution (5.3, 5.4).
const LINKING: [Row; 15] = [
    Row {
        classes: &[
            (
                "Main",
                "class 33 Main java/lang/Object\nmethod 9 main ([Ljava/lang/String;)V\ncode 4 4\nfrom:\nnew A\nreturn\nto:\npop\niconst_1\ninvokestatic mvm/Sys.println:(I)V\nnew A\nreturn\ncatch from to to java/lang/ClassCircularityError\nend\n",
            ),
            ("A", "class 33 A B\n"),
            ("B", "class 33 B A\n"),
        ],
        args: &[],
        limit: Limit::None,
        end: "exit 1\nuncaught 0 java/lang/ClassCircularityError",
        output: "1\n",
    },
    Row {
        classes: &[
            (
                "Main",
                "class 33 Main java/lang/Object\nmethod 9 main ([Ljava/lang/String;)V\ncode 4 4\nnew A\nreturn\nend\n",
            ),
            ("A", "class 33 A B\n"),
            ("B", "class 1537 B java/lang/Object\n"),
        ],
        args: &[],
        limit: Limit::None,
        end: "exit 1\nuncaught 0 java/lang/IncompatibleClassChangeError",
        output: "",
    },
    Row {
        classes: &[
            (
                "Main",
                "class 33 Main java/lang/Object\nmethod 9 main ([Ljava/lang/String;)V\ncode 4 4\nnew A\nreturn\nend\n",
            ),
            ("A", "class 33 A java/lang/Object\nimplements B\n"),
            ("B", "class 33 B java/lang/Object\n"),
        ],
        args: &[],
        limit: Limit::None,
        end: "exit 1\nuncaught 0 java/lang/IncompatibleClassChangeError",
        output: "",
    },
    Row {
        classes: &[
            (
                "Main",
                "class 33 Main java/lang/Object\nmethod 9 main ([Ljava/lang/String;)V\ncode 4 4\nnew A\nreturn\nend\n",
            ),
            ("A", "class 33 A Gone\n"),
        ],
        args: &[],
        limit: Limit::None,
        end: "exit 1\nuncaught 0 java/lang/NoClassDefFoundError",
        output: "",
    },
    Row {
        classes: &[
            (
                "Main",
                "class 33 Main java/lang/Object\nmethod 9 main ([Ljava/lang/String;)V\ncode 4 4\nnew A\nreturn\nend\n",
            ),
            ("A", "class 33 B java/lang/Object\n"),
        ],
        args: &[],
        limit: Limit::None,
        end: "exit 1\nuncaught 0 java/lang/NoClassDefFoundError",
        output: "",
    },
    Row {
        classes: &[
            (
                "Main",
                "class 33 Main java/lang/Object\nmethod 9 main ([Ljava/lang/String;)V\ncode 4 4\nfrom:\ninvokestatic A.touch:()V\nreturn\nto:\npop\niconst_1\ninvokestatic mvm/Sys.println:(I)V\ninvokestatic A.touch:()V\nreturn\ncatch from to to java/lang/VerifyError\nend\n",
            ),
            (
                "A",
                "class 33 A java/lang/Object\nmethod 9 touch ()V\ncode 0 0\nreturn\nend\nmethod 9 odd ()V\ncode 4 4\nnop\nend\n",
            ),
        ],
        args: &[],
        limit: Limit::None,
        end: "exit 1\nuncaught 0 java/lang/VerifyError",
        output: "1\n",
    },
    Row {
        classes: &[(
            "Main",
            "class 33 Main java/lang/Object\nmethod 9 touch ()V\ncode 0 0\nreturn\nend\n",
        )],
        args: &[],
        limit: Limit::None,
        end: "exit 1\nuncaught 0 java/lang/NoSuchMethodError",
        output: "",
    },
    Row {
        classes: &[(
            "Main",
            "class 33 Main java/lang/Object\nmethod 1 main ([Ljava/lang/String;)V\ncode 0 2\nreturn\nend\n",
        )],
        args: &[],
        limit: Limit::None,
        end: "exit 1\nuncaught 0 java/lang/NoSuchMethodError",
        output: "",
    },
    Row {
        classes: &[(
            "Main",
            "class 33 Main java/lang/Object\nmethod 8 main ([Ljava/lang/String;)V\ncode 0 1\nreturn\nend\n",
        )],
        args: &[],
        limit: Limit::None,
        end: "exit 1\nuncaught 0 java/lang/NoSuchMethodError",
        output: "",
    },
    Row {
        classes: &[(
            "Main",
            "class 33 Main java/lang/Object\nmethod 265 main ([Ljava/lang/String;)V\n",
        )],
        args: &[],
        limit: Limit::None,
        end: "exit 1\nuncaught 0 java/lang/UnsatisfiedLinkError",
        output: "",
    },
    Row {
        classes: &[
            (
                "Main",
                "class 33 Main java/lang/Object\nmethod 9 main ([Ljava/lang/String;)V\ncode 4 4\naconst_null\ngetfield A.x:I\nreturn\nend\n",
            ),
            ("A", "class 33 A java/lang/Object\nfield 2 x I\n"),
        ],
        args: &[],
        limit: Limit::None,
        end: "exit 1\nuncaught 0 java/lang/IllegalAccessError",
        output: "",
    },
    Row {
        classes: &[
            (
                "Main",
                "class 33 Main java/lang/Object\nmethod 9 main ([Ljava/lang/String;)V\ncode 4 4\naconst_null\ninvokevirtual A.m:()V\nreturn\nend\n",
            ),
            (
                "A",
                "class 33 A java/lang/Object\nmethod 2 m ()V\ncode 0 1\nreturn\nend\n",
            ),
        ],
        args: &[],
        limit: Limit::None,
        end: "exit 1\nuncaught 0 java/lang/IllegalAccessError",
        output: "",
    },
    Row {
        classes: &[
            (
                "Main",
                "class 33 Main java/lang/Object\nmethod 9 main ([Ljava/lang/String;)V\ncode 4 4\naconst_null\ngetfield A.x:I\nreturn\nend\n",
            ),
            ("A", "class 33 A java/lang/Object\nfield 0 x I\n"),
        ],
        args: &[],
        limit: Limit::None,
        end: "exit 1\nuncaught 0 java/lang/NullPointerException",
        output: "",
    },
    Row {
        classes: &[
            (
                "Main",
                "class 33 Main java/lang/Object\nmethod 9 main ([Ljava/lang/String;)V\ncode 4 4\nnew B\ninvokevirtual A.m:()V\nreturn\nend\n",
            ),
            ("A", "class 1057 A java/lang/Object\nmethod 1025 m ()V\n"),
            ("B", "class 33 B A\n"),
        ],
        args: &[],
        limit: Limit::None,
        end: "exit 1\nuncaught 0 java/lang/AbstractMethodError",
        output: "",
    },
    Row {
        classes: &[
            (
                "Main",
                "class 33 Main java/lang/Object\nmethod 9 main ([Ljava/lang/String;)V\ncode 4 4\naconst_null\ninvokevirtual A.m:()V\nreturn\nend\n",
            ),
            ("A", "class 1057 A java/lang/Object\nmethod 1025 m ()V\n"),
            ("B", "class 33 B A\n"),
        ],
        args: &[],
        limit: Limit::None,
        end: "exit 1\nuncaught 0 java/lang/NullPointerException",
        output: "",
    },
];

#[test]
fn leaves_of_initialisation(rt: HostRuntime) -> Result<(), Fail> {
    assert_eq!(rt; wrong(rt.alloc(), &INITIALISING)?.as_str(), "");
    Ok(())
}

#[test]
fn leaves_of_linking(rt: HostRuntime) -> Result<(), Fail> {
    assert_eq!(rt; wrong(rt.alloc(), &LINKING)?.as_str(), "");
    Ok(())
}
